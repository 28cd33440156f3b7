//! What a server says.

ghost use Rattle.std.specs.Prelude.{◌≡◌, false, true, IfErr, IfOk, string_bytes};
ghost use Rattle.serde_json.specs.View.{view};
ghost use Rattle.serde_json.specs.Written.{compact_text, has_float};
ghost use Rattle.x_frames.specs.Answers.{answer_front, error_name, error_number, error_text, note_data};
ghost use Rattle.x_frames.specs.Answers.{IsText, refusal_data, shown_data};
ghost use Rattle.x_frames.specs.Lives.{is_of_question};

use serde_json::{Value, json};
use std::alloc::{AllocError, Global};
use x_text::NoMemory;

/// Why a request is refused.
#[derive(Clone, Copy, Debug, PartialEq, Eq)]
pub enum ErrorCode {
    /// The message is no JSON.
    ParseError,
    /// The message is no request.
    InvalidRequest,
    /// The message has more bytes than are read.
    TooLong,
    /// The method is not known.
    MethodNotFound,
    /// The parameters are wrong.
    InvalidParams,
    /// Memory ran out.
    InternalError,
    /// It asks for what may not be: a name that is none, or is declared.
    RequestFailed,
    /// It asks for all places of a name, of which the first in a definition that does not parse stands in
    /// this line, counted from 1.
    NameUnparsed { line: usize },
    /// It asks to rename what has the name of an inline type.
    NameLifted,
    /// It is about a text that is not the client's.
    ContentModified,
    /// A message that came behind it cancels it.
    RequestCancelled,
    /// No request came before that initializes the server.
    NotInitialized,
}

impl From<NoMemory> for ErrorCode {
    ghost use Rattle.std.specs.Prelude.{◌≡◌};
    ghost use Rattle.x_frames.specs.declared.answers.ErrorCode.TheVariants.{InternalError};

    ghost from_gives = { λ _ code. code ≡ InternalError };

    fn from(_error: NoMemory) -> Self {
        ErrorCode::InternalError
    }
}

impl ErrorCode {
    fn number(self) -> i64
        ensures { result ≡ error_number self }
    {
        match self {
            ErrorCode::ParseError => -32700,
            ErrorCode::InvalidRequest => -32600,
            ErrorCode::TooLong => -32600,
            ErrorCode::MethodNotFound => -32601,
            ErrorCode::InvalidParams => -32602,
            ErrorCode::InternalError => -32603,
            ErrorCode::RequestFailed => -32803,
            ErrorCode::NameUnparsed { .. } => -32803,
            ErrorCode::NameLifted => -32803,
            ErrorCode::ContentModified => -32801,
            ErrorCode::RequestCancelled => -32800,
            ErrorCode::NotInitialized => -32002,
        }
    }

    fn name(self) -> &'static str
        ensures { result.now ≡ error_name self }
    {
        match self {
            ErrorCode::ParseError => "the message is no JSON",
            ErrorCode::InvalidRequest => "the message is no request",
            ErrorCode::TooLong => "the message has over 64 MiB",
            ErrorCode::MethodNotFound => "the method is not known",
            ErrorCode::InvalidParams => "the parameters are wrong",
            ErrorCode::InternalError => "out of memory",
            ErrorCode::RequestFailed => "the new name is none, or is declared",
            ErrorCode::NameUnparsed { .. } => "the name stands in a definition that does not parse",
            ErrorCode::NameLifted => "an inline type has that name too",
            ErrorCode::ContentModified => "the document is out of step",
            ErrorCode::RequestCancelled => "the request is cancelled",
            ErrorCode::NotInitialized => "the server is not initialized",
        }
    }

    /// What is said of it.
    fn text(self, alloc: Global) -> Result<String, AllocError>
        ensures { IfOk result (λ text. string_bytes text ≡ error_text self) }
    {
        let name = self.name();
        match self {
            ErrorCode::NameUnparsed { line } => format!(in alloc; "{name}, in line {line}"),
            _ => String::from_str(alloc, name),
        }
    }
}

/// The text of a result.
///
/// # Errors
///
/// [`ErrorCode::InternalError`] where the text could not grow.
pub fn result_text(alloc: Global, found: &Value) -> Result<Vec<u8>, ErrorCode>
    requires { has_float (view found.now) ≡ false }
    ensures text { IfOk result (λ text. IsText text.items) }
    ensures same { IfOk result (λ text. text.items ≡ compact_text (view found.now)) }
    ensures code { IfErr result (λ code. is_of_question code ≡ true) }
{
    match found.to_vec(alloc) {
        Ok(text) => Ok(text),
        Err(_) => Err(ErrorCode::InternalError),
    }
}

/// What stands in front of the result in the answer to the request with this id. Behind the result comes a
/// closing brace.
pub fn answer_front(alloc: Global, id: &Value) -> Result<Vec<u8>, AllocError>
    requires { has_float (view id.now) ≡ false }
    ensures { IfOk result (λ front. front.items ≡ answer_front (compact_text (view id.now))) }
{
    let id = id.to_vec(alloc)?;
    let mut front = Vec::from_slice(alloc, b"{\"id\":")?;
    front.extend_from_slice(&id)?;
    front.extend_from_slice(b",\"jsonrpc\":\"2.0\",\"result\":")?;
    Ok(front)
}

/// The answer that refuses the request with this id.
pub fn refusal(alloc: Global, id: &Value, code: ErrorCode) -> Result<Vec<u8>, AllocError>
    requires { has_float (view id.now) ≡ false }
    ensures { IfOk result (λ text. text.items ≡ compact_text (refusal_data (view id.now) code)) }
{
    refusal_value(alloc, id, code)?.to_vec(alloc)
}

fn refusal_value(alloc: Global, id: &Value, code: ErrorCode) -> Result<Value, AllocError>
    ensures { IfOk result (λ v. view v ≡ refusal_data (view id.now) code) }
{
    let number = code.number();
    let text = code.text(alloc)?;
    let message = text.as_str();
    json!(in alloc; {
        "jsonrpc": "2.0",
        "id": id,
        "error": {"code": number, "message": message}
    })
}

/// A note: a notification of the server.
pub fn note(alloc: Global, method: &str, params: Value) -> Result<Vec<u8>, AllocError>
    requires { has_float (view params) ≡ false }
    ensures { IfOk result (λ text. text.items ≡ compact_text (note_data method.now (view params))) }
{
    note_value(alloc, method, params)?.to_vec(alloc)
}

fn note_value(alloc: Global, method: &str, params: Value) -> Result<Value, AllocError>
    ensures { IfOk result (λ v. view v ≡ note_data method.now (view params)) }
{
    json!(in alloc; {"jsonrpc": "2.0", "method": method, "params": params})
}

/// The type of a message to the user that tells of a fault.
const ERROR: u32 = 1;

/// The note that shows a text to the user.
pub fn shown_text(alloc: Global, text: &str) -> Result<Vec<u8>, AllocError>
    ensures { IfOk result (λ shown. shown.items ≡ compact_text (shown_data text.now)) }
{
    let params = json!(in alloc; {"type": ERROR, "message": text})?;
    note(alloc, "window/showMessage", params)
}
