//! Messages of JSON-RPC 2.0.
ghost use Rattle.std.specs.Prelude.{◌≡◌, IfOk, None, option_map, string_bytes};
ghost use Rattle.server_protocol.specs.Messages.{IsMessage, IsRequestOf, MatchIncoming};
ghost use Rattle.server_protocol.specs.Messages as spec;
ghost use Rattle.serde_json.specs.View.{view};

use serde_json::{Value, json};
use std::alloc::{AllocError, Global};

/// An error code of JSON-RPC or of the protocol.
#[derive(Clone, Copy, Debug, PartialEq, Eq)]
pub enum ErrorCode {
    ParseError,
    InvalidRequest,
    MethodNotFound,
    InvalidParams,
    InternalError,
    ServerNotInitialized,
    RequestFailed,
}

impl ErrorCode {
    /// Its number.
    fn number(self) -> i64
        ensures { result ≡ spec.code_number self }
    {
        match self {
            ErrorCode::ParseError => -32700,
            ErrorCode::InvalidRequest => -32600,
            ErrorCode::MethodNotFound => -32601,
            ErrorCode::InvalidParams => -32602,
            ErrorCode::InternalError => -32603,
            ErrorCode::ServerNotInitialized => -32002,
            ErrorCode::RequestFailed => -32803,
        }
    }
}

/// The answer to a request.
#[derive(Drop)]
pub enum Answer {
    Result(Value),
    Error(ErrorCode, &'static str),
}

/// A message that comes in.
pub enum Incoming<'m> {
    Request { id: &'m Value, method: &'m str },
    Notification { method: &'m str },
    /// A response to a request, of which this server makes none.
    Response,
    /// A message that is none of these.
    Invalid,
}

/// Returns the class of a message. The id of a request is a number, a text, or null.
pub fn classify(message: &Value) -> Incoming<'_>
    ensures { MatchIncoming (view message.now) result }
{
    let Some(method) = method_of(message) else {
        return response_or_invalid(message);
    };
    match message.get("id") {
        None => Incoming::Notification { method },
        Some(id) => request(id, method),
    }
}

/// Returns the method of a message.
fn method_of(message: &Value) -> Option<&str>
    ensures { option_map (λ method. method.now) result ≡ spec.method_of (view message.now) }
{
    message.get("method").and_then(Value::as_str)
}

/// Returns the class of a message without a method.
fn response_or_invalid(message: &Value) -> Incoming<'_>
    requires { spec.method_of (view message.now) ≡ None }
    ensures { MatchIncoming (view message.now) result }
{
    if is_response(message) {
        Incoming::Response
    } else {
        Incoming::Invalid
    }
}

/// Whether a message without a method has a result or an error.
fn is_response(message: &Value) -> bool
    ensures { result ≡ spec.is_response (view message.now) }
{
    message.get("method").is_none()
        && (message.get("result").is_some() || message.get("error").is_some())
}

/// Returns a request, if the id can be that of one.
fn request<'m>(id: &'m Value, method: &'m str) -> Incoming<'m>
    ensures { IsRequestOf (view id.now) method.now result }
{
    if is_id(id) {
        Incoming::Request { id, method }
    } else {
        Incoming::Invalid
    }
}

/// Whether a value can be the id of a request.
fn is_id(id: &Value) -> bool
    ensures { result ≡ spec.is_id (view id.now) }
{
    id.is_number() || id.is_string() || id.is_null()
}

/// Returns the message that answers the request of this id.
pub fn response(alloc: Global, id: &Value, answer: Answer) -> Result<String, AllocError>
    ensures { IfOk result
        (λ body. IsMessage (spec.response_data (view id.now) answer) (string_bytes body)) }
{
    match answer {
        Answer::Result(result) => result_response(alloc, id, result),
        Answer::Error(code, reason) => error_response(alloc, id, code, reason),
    }
}

/// Returns the message that answers the request of this id by a result.
fn result_response(alloc: Global, id: &Value, value: Value) -> Result<String, AllocError>
    ensures { IfOk result
        (λ body. IsMessage (spec.result_data (view id.now) (view value)) (string_bytes body)) }
{
    let message = result_message(alloc, id, value)?;
    message_text(alloc, &message)
}

/// Returns the response to the request of this id by a result, as a value.
fn result_message(alloc: Global, id: &Value, value: Value) -> Result<Value, AllocError>
    ensures { IfOk result (λ message. view message ≡ spec.result_data (view id.now) (view value)) }
{
    json!(in alloc; { "jsonrpc": "2.0", "id": id, "result": value })
}

/// Returns the message that answers the request of this id by an error.
pub fn error_response(
    alloc: Global,
    id: &Value,
    code: ErrorCode,
    reason: &str,
) -> Result<String, AllocError>
    ensures { IfOk result (λ body.
        IsMessage (spec.error_data (view id.now) code reason.now) (string_bytes body)) }
{
    let message = error_message(alloc, id, code, reason)?;
    message_text(alloc, &message)
}

/// Returns the response to the request of this id by an error, as a value.
fn error_message(
    alloc: Global,
    id: &Value,
    code: ErrorCode,
    reason: &str,
) -> Result<Value, AllocError>
    ensures { IfOk result (λ message. view message ≡ spec.error_data (view id.now) code reason.now) }
{
    json!(in alloc; {
        "jsonrpc": "2.0",
        "id": id,
        "error": { "code": code.number(), "message": reason },
    })
}

/// Returns a notification.
pub fn notification(alloc: Global, method: &str, params: Value) -> Result<String, AllocError>
    ensures { IfOk result (λ body.
        IsMessage (spec.notification_data method.now (view params)) (string_bytes body)) }
{
    let message = notification_message(alloc, method, params)?;
    message_text(alloc, &message)
}

/// Returns a notification as a value.
fn notification_message(alloc: Global, method: &str, params: Value) -> Result<Value, AllocError>
    ensures { IfOk result (λ message. view message ≡ spec.notification_data method.now (view params)) }
{
    json!(in alloc; { "jsonrpc": "2.0", "method": method, "params": params })
}

/// Returns a message as it is sent.
fn message_text(alloc: Global, message: &Value) -> Result<String, AllocError>
    ensures { IfOk result (λ body. IsMessage (view message.now) (string_bytes body)) }
{
    message.to_string(alloc)
}
