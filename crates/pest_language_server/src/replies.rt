//! Messages that answer others.
ghost use Rattle.std.specs.Prelude.{◌≡◌, IfOk, None, Ok, Some};
ghost use Rattle.server_protocol.specs.Messages.{IsMessage, error_data};
ghost use Rattle.pest_language_server.specs.Replies.{IsOneMessage, IsRefusal, IsOutOfMemory, IsResponse};
ghost use Rattle.serde_json.specs.View.{view};

use serde_json::{Error, Value};
use server_protocol::messages::{Answer, ErrorCode, error_response, response};
use std::alloc::{AllocError, Global};

/// The reply of a server to a message.
#[derive(Drop)]
pub struct Reply {
    /// The message to be sent, if there is one.
    pub body: Option<String>,
    /// The status with which the process is to end, if it is to.
    pub exit: Option<u8>,
}

/// The message of an allocation failure.
pub(crate) const OUT_OF_MEMORY: &str = "out of memory";

/// Returns a reply of one message.
fn reply_of(body: String) -> Reply
    ensures body { result.body ≡ Some body }
    ensures exit { result.exit ≡ None }
{
    Reply {
        body: Some(body),
        exit: None,
    }
}

/// Returns the reply that refuses a message that has no id, or none that can be read.
pub(crate) fn refusal(alloc: Global, code: ErrorCode, reason: &str) -> Result<Reply, AllocError>
    ensures { IfOk result IsRefusal }
{
    error_reply(alloc, &Value::Null, code, reason)
}

/// Returns the reply to bytes that cannot be read as JSON, or for which there was no memory.
pub(crate) fn refuse_unread(alloc: Global, error: &Error) -> Result<Reply, AllocError>
    ensures { IfOk result IsRefusal }
{
    if error.is_memory() {
        refusal(alloc, ErrorCode::InternalError, OUT_OF_MEMORY)
    } else {
        refusal(alloc, ErrorCode::ParseError, "the message is no JSON")
    }
}

/// Returns the response to a request by an error.
fn error_reply(
    alloc: Global,
    id: &Value,
    code: ErrorCode,
    reason: &str,
) -> Result<Reply, AllocError>
    ensures { IfOk result (IsOneMessage (IsMessage (error_data (view id.now) code reason.now))) }
{
    let body = error_response(alloc, id, code, reason)?;
    Ok(reply_of(body))
}

/// Returns the response to a request, also if there was no memory for its answer.
pub(crate) fn respond(
    alloc: Global,
    id: &Value,
    outcome: Result<Answer, AllocError>,
) -> Result<Reply, AllocError>
    ensures { IfOk result (IsOneMessage (IsResponse (λ answer. outcome ≡ Ok answer) (view id.now))) }
{
    match outcome {
        Ok(answer) => respond_by(alloc, id, answer),
        Err(_) => internal_error(alloc, id),
    }
}

/// Returns the response to a request by an answer, also if there was no memory for that.
fn respond_by(alloc: Global, id: &Value, answer: Answer) -> Result<Reply, AllocError>
    ensures { IfOk result (IsOneMessage (IsResponse (λ given. given ≡ answer) (view id.now))) }
{
    match response(alloc, id, answer) {
        Ok(body) => Ok(reply_of(body)),
        Err(_) => internal_error(alloc, id),
    }
}

/// Returns the response to a request for which there was no memory.
fn internal_error(alloc: Global, id: &Value) -> Result<Reply, AllocError>
    ensures { IfOk result (IsOneMessage (IsOutOfMemory (view id.now))) }
{
    error_reply(alloc, id, ErrorCode::InternalError, OUT_OF_MEMORY)
}
