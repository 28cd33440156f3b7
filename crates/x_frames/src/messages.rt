//! What a client says.

ghost use Rattle.std.specs.Prelude.{◌≡◌, false, IsTrue, option_map};
ghost use Rattle.serde_json.specs.View.{view};
ghost use Rattle.serde_json.specs.Written.{has_float};
ghost use Rattle.x_frames.specs.Messages.{HasPlainId, asked_by, asked_of, is_answer, is_id, method_of};

use serde_json::Value;

/// What a message is.
#[derive(Clone, Copy)]
pub enum Incoming<'m> {
    /// A request, which is to be answered.
    Request { id: &'m Value, method: &'m str },
    /// A notification, which is not.
    Notification { method: &'m str },
    /// An answer to a request of the server, which makes none.
    Response,
    /// None of these.
    Invalid,
}

/// What a message is.
pub fn classify(message: &Value) -> Incoming<'_>
    ensures asked { asked_of result ≡ asked_by (view message.now) }
    ensures id { HasPlainId result }
{
    let Some(method) = method_of(message) else {
        return if is_answer(message) {
            Incoming::Response
        } else {
            Incoming::Invalid
        };
    };
    let Some(id) = message.get("id") else {
        return Incoming::Notification { method };
    };
    if is_id(id) {
        Incoming::Request { id, method }
    } else {
        Incoming::Invalid
    }
}

fn method_of(message: &Value) -> Option<&str>
    ensures { option_map (λ m. m.now) result ≡ method_of (view message.now) }
{
    message.get("method").and_then(Value::as_str)
}

/// Whether a message has a result or an error, as answers do.
fn is_answer(message: &Value) -> bool
    ensures { result ≡ is_answer (view message.now) }
{
    message.get("result").is_some() || message.get("error").is_some()
}

/// Whether a value may be a request's id: a number without a fraction, or a string.
fn is_id(value: &Value) -> bool
    ensures id { result ≡ is_id (view value.now) }
    ensures plain { IsTrue result → has_float (view value.now) ≡ false }
{
    match value {
        Value::Number(number) => !number.is_f64(),
        Value::String(_) => true,
        _ => false,
    }
}
