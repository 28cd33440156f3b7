//! Requests that a client cancels (LSP 3.17, "Cancellation Support").

ghost use Rattle.std.specs.Prelude.{◌≡◌, ◌≤◌, ◌+◌, IfSome, IsTrue, length, option_map};
ghost use Rattle.serde_json.specs.View.{view};
ghost use Rattle.x_frames.specs.Cancelling.{Cancels, IsCancelledIn, cancelled_by, is_of, is_same_id};
ghost use Rattle.x_frames.specs.Cancelling.{is_same_number, is_same_text};
ghost use Rattle.x_frames.specs.Framing.{IsFramed};

use crate::head::{Head, find_head};
use crate::messages::{Incoming, classify};
use crate::params::member;
use serde_json::Value;
use std::alloc::Global;

/// The notification that cancels a request.
const CANCEL: &str = "$/cancelRequest";

/// Whether a message that is whole in these bytes cancels the request with an id. Without memory to read one,
/// that is passed over.
pub fn is_cancelled(alloc: Global, bytes: &[u8], id: &Value) -> bool
    ensures { IsTrue result → IsCancelledIn (view id.now) bytes.now }
{
    let mut rest = bytes;
    for _ in 0..bytes.len() {
        let Some((body, behind)) = front_of(rest) else {
            return false;
        };
        if cancels(alloc, body, id) {
            return true;
        }
        rest = behind;
    }
    false
}

/// The body of the message at the front of the bytes, and what follows it, if the message is whole.
fn front_of(bytes: &[u8]) -> Option<(&[u8], &[u8])>
    ensures { IfSome result (λ found. IsFramed bytes.now found.0.now found.1.now) }
{
    let Ok(Some(head)) = find_head(bytes) else {
        return None;
    };
    if !is_whole(bytes, &head) {
        return None;
    }
    let end = head.length + head.body;
    Some((&bytes[head.length..end], &bytes[end..]))
}

/// Whether the body has come that header fields announce.
fn is_whole(bytes: &[u8], head: &Head) -> bool
    ensures { IsTrue result → head.now.length + head.now.body ≤ length bytes.now }
{
    head.length <= bytes.len() && head.body <= bytes.len() - head.length
}

/// Whether a body is a message that cancels the request with an id.
fn cancels(alloc: Global, body: &[u8], id: &Value) -> bool
    ensures { IsTrue result → Cancels (view id.now) body.now }
{
    match Value::from_slice(alloc, body) {
        Ok(message) => is_of(cancelled_by(&message), id),
        Err(_) => false,
    }
}

/// The id of the request that a message cancels, if it cancels one.
fn cancelled_by(message: &Value) -> Option<&Value>
    ensures { option_map (λ v. view v.now) result ≡ cancelled_by (view message.now) }
{
    match classify(message) {
        Incoming::Notification { method } => {
            if method == CANCEL {
                member(message.get("params"), "id")
            } else {
                None
            }
        }
        _ => None,
    }
}

/// Whether an id, if it is there, is the same as another.
fn is_of(other: Option<&Value>, id: &Value) -> bool
    ensures { result ≡ is_of (option_map (λ v. view v.now) other.entry) (view id.now) }
{
    match other {
        Some(other) => is_same_id(other, id),
        None => false,
    }
}

/// Whether two ids are one text, or one number.
fn is_same_id(id: &Value, other: &Value) -> bool
    ensures { result ≡ is_same_id (view id.now) (view other.now) }
{
    is_same_text(id.as_str(), other.as_str()) || is_same_number(id.as_i64(), other.as_i64())
}

fn is_same_text(text: Option<&str>, other: Option<&str>) -> bool
    ensures { result
        ≡ is_same_text (option_map (λ t. t.now) text.entry) (option_map (λ t. t.now) other.entry) }
{
    match (text, other) {
        (Some(text), Some(other)) => text == other,
        _ => false,
    }
}

fn is_same_number(number: Option<i64>, other: Option<i64>) -> bool
    ensures { result ≡ is_same_number number other }
{
    match (number, other) {
        (Some(number), Some(other)) => number == other,
        _ => false,
    }
}
