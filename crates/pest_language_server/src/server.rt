//! A server: its state, and its replies.
ghost use Rattle.std.specs.Prelude.{◌≡◌, IfOk, IfSome, OnOk, Some, bytes_eq, codes, string_bytes};
ghost use Rattle.server_protocol.specs.Documents.{KeepsDocuments, document_in};
ghost use Rattle.server_protocol.specs.Messages as messages;
ghost use Rattle.server_features.specs.Diagnoses.{accepted_in};
ghost use Rattle.server_features.specs.Diagnostics.{Publishes};
ghost use Rattle.pest_language_server.specs.Notices as spec;
ghost use Rattle.pest_language_server.specs.Notices.{Announces, AnnouncesAt, AnnouncesChange, AnnouncesClosing, AnnouncesOpening, PublishesAt, changed_at, changed_by, notice_in};
ghost use Rattle.pest_language_server.specs.Replies.{IsRefusal};
ghost use Rattle.pest_language_server.specs.Requests.{AnswersForDocument, AnswersOpen};
ghost use Rattle.server_requests.specs.Answers.{IsResult};
ghost use Rattle.pest_language_server.specs.Serving.{AnswersAsked, AnswersIn, AnswersRequest, HandlesMessage, IsNew, RepliesTo, SameSession, TakesNotification, after_request, exit_at, phase_of, status_in};
ghost use Rattle.serde_json.specs.Data as json_data;
ghost use Rattle.serde_json.specs.View.{view};

use crate::capabilities::initialize_result;
use crate::replies::{OUT_OF_MEMORY, Reply, refusal, refuse_unread, respond};
use crate::requests::{RequestMethod, answer_in, request_of};
use serde_json::Value;
use server_features::diagnoses::Diagnoses;
use server_features::diagnostics::{publish, publish_none};
use server_features::notes::KeptNotes;
use server_protocol::apply_changes;
use server_protocol::client::{Client, client_of};
use server_protocol::documents::{Document, Documents};
use server_protocol::messages::{Answer, ErrorCode, Incoming, classify};
use server_protocol::params::{changes_in, text_at, version_of};
use server_requests::context::Context;
use server_requests::symbols::workspace_symbols;
use std::alloc::{AllocError, Global};

/// How far a session has come.
#[derive(Clone, Copy, Debug, PartialEq, Eq)]
pub enum Phase {
    /// `initialize` has not come.
    New,
    Running,
    /// `shutdown` has come.
    ShutDown,
}

/// The subject of a notification.
#[derive(Clone, Copy, Debug, PartialEq, Eq)]
enum Notice {
    /// A document is opened.
    Open,
    Change,
    Save,
    Close,
}

/// A server: its session, the open documents, and what is kept of them.
#[derive(Drop)]
pub struct Server {
    phase: Phase,
    client: Client,
    documents: Documents,
    diagnoses: Diagnoses,
    notes: KeptNotes,
}

impl Server {
    /// Returns a server at the start of a session.
    pub fn new(alloc: Global) -> Server
        ensures { IsNew result }
    {
        Server {
            phase: Phase::New,
            client: Client::default(),
            documents: Documents::new(alloc),
            diagnoses: Diagnoses::new(alloc),
            notes: KeptNotes::new(),
        }
    }

    /// Takes the body of a message, and returns the reply. Fails if there is no memory even for an error;
    /// the documents are then as before, or have taken the change.
    pub fn handle(&mut self, alloc: Global, body: &[u8]) -> Result<Reply, AllocError>
        ensures { IfOk result (RepliesTo self.old self.new body.now) }
    {
        match Value::from_slice(alloc, body) {
            Ok(message) => self.handle_message(alloc, &message),
            Err(error) => refuse_unread(alloc, &error),
        }
    }

    /// Returns the reply to a frame without a length.
    pub fn refuse_frame(&self, alloc: Global) -> Result<Reply, AllocError>
        ensures { IfOk result IsRefusal }
    {
        refusal(alloc, ErrorCode::InvalidRequest, "the frame has no length")
    }

    /// Returns the reply to a message for which there was no memory.
    pub fn refuse_body(&self, alloc: Global) -> Result<Reply, AllocError>
        ensures { IfOk result IsRefusal }
    {
        refusal(alloc, ErrorCode::InternalError, OUT_OF_MEMORY)
    }

    /// Takes a message, and returns the reply.
    fn handle_message(&mut self, alloc: Global, message: &Value) -> Result<Reply, AllocError>
        ensures { IfOk result (HandlesMessage self.old self.new (view message.now)) }
    {
        match classify(message) {
            Incoming::Response => Ok(Reply {
                body: None,
                exit: None,
            }),
            Incoming::Invalid => refusal(
                alloc,
                ErrorCode::InvalidRequest,
                "the message is no request",
            ),
            Incoming::Notification { method } => {
                Ok(self.handle_notification(alloc, method, message))
            }
            Incoming::Request { id, method } => self.handle_request(alloc, id, method, message),
        }
    }

    /// Takes a request, and returns the reply, also if there was no memory for the answer.
    fn handle_request(
        &mut self,
        alloc: Global,
        id: &Value,
        method: &str,
        message: &Value,
    ) -> Result<Reply, AllocError>
        ensures { IfOk result (AnswersRequest self.old self.new (view id.now) method.now
            (messages.params_of (view message.now))) }
    {
        let null = Value::Null;
        let params = params_of(message, &null);
        let outcome = self.answer(alloc, method, params);
        respond(alloc, id, outcome)
    }

    /// Takes a notification. A failure has no answer, so no clause tells a notification that is passed over
    /// from one for which memory was refused.
    fn handle_notification(&mut self, alloc: Global, method: &str, message: &Value) -> Reply
        ensures { TakesNotification self.old self.new method.now
            (messages.params_of (view message.now)) result }
    {
        let null = Value::Null;
        let params = params_of(message, &null);
        let exit = self.exit_for(method);
        let body = self.take_notification(alloc, method, params);
        Reply { body, exit }
    }

    /// Returns the status with which the process is to end at a notification of this method, if it is to.
    fn exit_for(&self, method: &str) -> Option<u8>
        ensures { result ≡ exit_at (phase_of self.now) method.now }
    {
        if is_exit(method) {
            Some(self.exit_status())
        } else {
            None
        }
    }

    /// Returns the status with which the process is to end at `exit`: 0 after `shutdown`, else 1.
    fn exit_status(&self) -> u8
        ensures { result ≡ status_in (phase_of self.now) }
    {
        match self.phase {
            Phase::ShutDown => 0,
            Phase::New | Phase::Running => 1,
        }
    }

    /// Takes a notification, if the session runs. Returns the notification of diagnostics
    /// that it gives rise to.
    fn take_notification(&mut self, alloc: Global, method: &str, params: &Value) -> Option<String>
        ensures session { SameSession self.old self.new }
        ensures documents { KeepsDocuments
            (changed_by (notice_in (phase_of self.old) method.now) (view params.now))
            self.old.documents self.new.documents }
        ensures sent { IfSome result (λ body. Announces (notice_in (phase_of self.old) method.now)
            self.old self.new (view params.now) (string_bytes body)) }
    {
        match self.notice(method) {
            Some(notice) => self.take_notice(alloc, notice, params),
            None => None,
        }
    }

    /// Returns what a notification of this method is about, if the session runs.
    fn notice(&self, method: &str) -> Option<Notice>
        ensures { result ≡ notice_in (phase_of self.now) method.now }
    {
        match self.phase {
            Phase::Running => notice_of(method),
            Phase::New | Phase::ShutDown => None,
        }
    }

    /// Takes a notification about a document. Returns the notification of its diagnostics.
    fn take_notice(&mut self, alloc: Global, notice: Notice, params: &Value) -> Option<String>
        ensures session { SameSession self.old self.new }
        ensures documents { KeepsDocuments (changed_by (Some notice) (view params.now))
            self.old.documents self.new.documents }
        ensures sent { IfSome result (λ body.
            Announces (Some notice) self.old self.new (view params.now) (string_bytes body)) }
    {
        let uri = text_at(params, "/textDocument/uri")?;
        match self.synchronize(alloc, notice, uri, params) {
            Ok(body) => body,
            Err(_) => None,
        }
    }

    /// Opens, changes, saves or closes a document. Returns the notification of its diagnostics.
    fn synchronize(
        &mut self,
        alloc: Global,
        notice: Notice,
        uri: &str,
        params: &Value,
    ) -> Result<Option<String>, AllocError>
        ensures session { SameSession self.old self.new }
        ensures documents { KeepsDocuments (changed_at notice uri.now) self.old.documents self.new.documents }
        ensures sent { IfOk result (λ sent. IfSome sent (λ body.
            AnnouncesAt notice uri.now self.old self.new (view params.now) (string_bytes body))) }
    {
        match notice {
            Notice::Open => self.open(alloc, uri, params),
            Notice::Change => self.change(alloc, uri, params),
            Notice::Save => self.publish(alloc, uri),
            Notice::Close => self.close(alloc, uri),
        }
    }

    /// Opens a document.
    fn open(
        &mut self,
        alloc: Global,
        uri: &str,
        params: &Value,
    ) -> Result<Option<String>, AllocError>
        ensures session { SameSession self.old self.new }
        ensures documents { KeepsDocuments (Some uri.now) self.old.documents self.new.documents }
        ensures sent { IfOk result (λ sent. IfSome sent (λ body.
            AnnouncesOpening uri.now self.old self.new (view params.now) (string_bytes body))) }
    {
        let Some(text) = text_at(params, "/textDocument/text") else {
            return Ok(None);
        };
        let text = String::from_str(alloc, text)?;
        let document = Document::new(alloc, text, version_of(params))?;
        self.put(alloc, uri, document)
    }

    /// Changes a document.
    fn change(
        &mut self,
        alloc: Global,
        uri: &str,
        params: &Value,
    ) -> Result<Option<String>, AllocError>
        ensures session { SameSession self.old self.new }
        ensures documents { KeepsDocuments (Some uri.now) self.old.documents self.new.documents }
        ensures sent { IfOk result (λ sent. IfSome sent (λ body.
            AnnouncesChange uri.now self.old self.new (view params.now) (string_bytes body))) }
    {
        let Some(changes) = changes_in(alloc, params)? else {
            return Ok(None);
        };
        let Some(document) = self.documents.get(uri) else {
            return Ok(None);
        };
        let encoding = self.client.encoding;
        let text = apply_changes(alloc, document.text.as_str(), encoding, &changes)?;
        let document = Document::new(alloc, text, version_of(params))?;
        self.put(alloc, uri, document)
    }

    /// Closes a document. Returns the notification that it has no diagnostics.
    fn close(&mut self, alloc: Global, uri: &str) -> Result<Option<String>, AllocError>
        ensures session { SameSession self.old self.new }
        ensures documents { KeepsDocuments (Some uri.now) self.old.documents self.new.documents }
        ensures sent { IfOk result (λ sent. IfSome sent (λ body.
            AnnouncesClosing uri.now self.new (string_bytes body))) }
    {
        self.documents.remove(uri);
        self.diagnoses.remove(uri);
        Ok(Some(publish_none(alloc, uri)?))
    }

    /// Gives a document its text, and returns the notification of its diagnostics.
    fn put(
        &mut self,
        alloc: Global,
        uri: &str,
        document: Document,
    ) -> Result<Option<String>, AllocError>
        ensures session { SameSession self.old self.new }
        ensures documents { KeepsDocuments (Some uri.now) self.old.documents self.new.documents }
        ensures stored { OnOk result (document_in self.new.documents uri.now ≡ Some document) }
        ensures sent { IfOk result (λ sent. IfSome sent (λ body.
            Publishes self.old.client (accepted_in self.old.diagnoses uri.now) uri.now document
            (string_bytes body))) }
    {
        self.documents.put(alloc, uri, document)?;
        self.publish(alloc, uri)
    }

    /// Returns the notification of a document's diagnostics, if it is open.
    fn publish(&mut self, alloc: Global, uri: &str) -> Result<Option<String>, AllocError>
        ensures session { SameSession self.old self.new }
        ensures documents { self.new.documents ≡ self.old.documents }
        ensures sent { IfOk result (λ sent. IfSome sent (λ body.
            PublishesAt self.old uri.now (string_bytes body))) }
    {
        match self.documents.get(uri) {
            Some(document) => {
                let diagnoses = &mut self.diagnoses;
                let body = publish(alloc, self.client, uri, document, diagnoses)?;
                Ok(Some(body))
            }
            None => Ok(None),
        }
    }

    /// Answers a request.
    fn answer(&mut self, alloc: Global, method: &str, params: &Value) -> Result<Answer, AllocError>
        ensures phase { phase_of self.new ≡ after_request (phase_of self.old) method.now }
        ensures documents { self.new.documents ≡ self.old.documents }
        ensures answer { IfOk result (AnswersAsked self.old method.now (view params.now)) }
    {
        match self.phase {
            Phase::New => self.answer_first(alloc, method, params),
            Phase::Running => self.answer_running(alloc, method, params),
            Phase::ShutDown => Ok(Answer::Error(ErrorCode::InvalidRequest, "`shutdown` has come")),
        }
    }

    /// Answers a request before `initialize`.
    fn answer_first(
        &mut self,
        alloc: Global,
        method: &str,
        params: &Value,
    ) -> Result<Answer, AllocError>
        requires { phase_of self.old ≡ Phase.New }
        ensures phase { phase_of self.new ≡ after_request Phase.New method.now }
        ensures documents { self.new.documents ≡ self.old.documents }
        ensures answer { IfOk result (AnswersIn Phase.New self.old.client self.old.documents method.now
            (view params.now)) }
    {
        if !is_initialize(method) {
            return Ok(Answer::Error(ErrorCode::ServerNotInitialized, "`initialize` has not come"));
        }
        self.client = client_of(params);
        self.phase = Phase::Running;
        initialize_answer(alloc, self.client)
    }

    /// Answers a request after `initialize`.
    fn answer_running(
        &mut self,
        alloc: Global,
        method: &str,
        params: &Value,
    ) -> Result<Answer, AllocError>
        requires { phase_of self.old ≡ Phase.Running }
        ensures phase { phase_of self.new ≡ after_request Phase.Running method.now }
        ensures documents { self.new.documents ≡ self.old.documents }
        ensures answer { IfOk result (AnswersIn Phase.Running self.old.client self.old.documents method.now
            (view params.now)) }
    {
        if is_shutdown(method) {
            self.phase = Phase::ShutDown;
            return Ok(Answer::Result(Value::Null));
        }
        if is_initialize(method) {
            return Ok(Answer::Error(ErrorCode::InvalidRequest, "`initialize` has come before"));
        }
        self.answer_open(alloc, method, params)
    }

    /// Answers a request about open documents.
    fn answer_open(
        &mut self,
        alloc: Global,
        method: &str,
        params: &Value,
    ) -> Result<Answer, AllocError>
        ensures phase { phase_of self.new ≡ phase_of self.old }
        ensures documents { self.new.documents ≡ self.old.documents }
        ensures answer { IfOk result
            (AnswersOpen self.old.client self.old.documents method.now (view params.now)) }
    {
        if is_workspace_symbol(method) {
            return workspace_symbols(alloc, self.client, &self.documents, query_in(params));
        }
        match request_of(method) {
            Some(request) => self.answer_for_document(alloc, request, params),
            None => Ok(Answer::Error(ErrorCode::MethodNotFound, "no such method")),
        }
    }

    /// Answers a request that is about a document.
    fn answer_for_document(
        &mut self,
        alloc: Global,
        request: RequestMethod,
        params: &Value,
    ) -> Result<Answer, AllocError>
        ensures phase { phase_of self.new ≡ phase_of self.old }
        ensures documents { self.new.documents ≡ self.old.documents }
        ensures answer { IfOk result
            (AnswersForDocument self.old.client self.old.documents request (view params.now)) }
    {
        let context = Context::of_params(self.client, &self.documents, params);
        match &context {
            Some(context) => {
                let notes = &mut self.notes;
                answer_in(alloc, context, &self.diagnoses, notes, request, params)
            }
            None => Ok(Answer::Error(ErrorCode::InvalidParams, "no such document is open")),
        }
    }
}

/// Returns the parameters of a message, or null.
fn params_of<'m>(message: &'m Value, null: &'m Value) -> &'m Value
    requires { view null.now ≡ json_data.null }
    ensures { view result.now ≡ messages.params_of (view message.now) }
{
    match message.get("params") {
        Some(params) => params,
        None => null,
    }
}

/// Returns what a notification of this method is about.
fn notice_of(method: &str) -> Option<Notice>
    ensures { result ≡ spec.notice_of method.now }
{
    if method == "textDocument/didOpen" {
        Some(Notice::Open)
    } else if method == "textDocument/didChange" {
        Some(Notice::Change)
    } else if method == "textDocument/didSave" {
        Some(Notice::Save)
    } else if method == "textDocument/didClose" {
        Some(Notice::Close)
    } else {
        None
    }
}

/// Whether a method is `initialize`.
fn is_initialize(method: &str) -> bool
    ensures { result ≡ bytes_eq method.now (codes "initialize") }
{
    method == "initialize"
}

/// Whether a method is `shutdown`.
fn is_shutdown(method: &str) -> bool
    ensures { result ≡ bytes_eq method.now (codes "shutdown") }
{
    method == "shutdown"
}

/// Whether a method is `exit`.
fn is_exit(method: &str) -> bool
    ensures { result ≡ bytes_eq method.now (codes "exit") }
{
    method == "exit"
}

/// Whether a method is `workspace/symbol`.
fn is_workspace_symbol(method: &str) -> bool
    ensures { result ≡ bytes_eq method.now (codes "workspace/symbol") }
{
    method == "workspace/symbol"
}

/// Returns the text that is looked for in the names of rules.
fn query_in(params: &Value) -> &str {
    match text_at(params, "/query") {
        Some(query) => query,
        None => "",
    }
}

/// Returns the answer to `initialize`.
fn initialize_answer(alloc: Global, client: Client) -> Result<Answer, AllocError>
    ensures { IfOk result IsResult }
{
    Ok(Answer::Result(initialize_result(alloc, client)?))
}
