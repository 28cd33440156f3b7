//! Bytes as strings of JSON.

ghost use Rattle.std.specs.Prelude.{◌≡◌, IfOk};
ghost use Rattle.std.specs.List.{list_all};
ghost use Rattle.std.specs.Str.Lossy.{utf8_lossy};
ghost use Rattle.serde_json.specs.Data.{string};
ghost use Rattle.serde_json.specs.Written.{compact_text};
ghost use Rattle.x_contents.specs.StringTexts.{is_plain_byte};

use serde_json::Value;
use std::alloc::Global;
use x_text::NoMemory;

/// Whether each byte stands for itself in a string of JSON, as in each word.
pub(crate) fn is_plain(bytes: &[u8]) -> bool
    ensures { result ≡ list_all is_plain_byte bytes.now }
{
    bytes.iter().all(|byte| is_plain_byte(*byte))
}

fn is_plain_byte(byte: u8) -> bool
    ensures { result ≡ is_plain_byte byte }
{
    byte >= b' ' && byte < 127 && byte != b'"' && byte != b'\\'
}

/// The text of bytes as a string of JSON.
pub(crate) fn string_text(alloc: Global, bytes: &[u8]) -> Result<Vec<u8>, NoMemory>
    ensures { IfOk result (λ text. text.items ≡ compact_text (string (utf8_lossy bytes.now))) }
{
    let string = Value::String(String::from_utf8_lossy(alloc, bytes)?);
    Ok(string.to_vec(alloc)?)
}
