//! What is published of faults that are not shown.

ghost use Rattle.std.specs.Prelude.{◌≡◌, IfOk, option_map, string_bytes};
ghost use Rattle.std.specs.Option.{option_to_list};
ghost use Rattle.x_published.specs.Published.{data_of};
ghost use Rattle.x_published.specs.Unshown.{unshown_data, unshown_text};

use crate::published::{Diagnostic, Message, Severity};
use itoa::Buffer;
use std::alloc::{AllocError, Global};
use x_positions::{Position, Range};

/// Where no word is.
const BEFORE_ALL: Position = Position {
    line: 0,
    character: 0,
};

/// What is published of so many faults of a text that are not shown: how many they are, if there are any.
///
/// # Errors
///
/// [`AllocError`] where the text could not grow.
pub fn unshown<'d>(alloc: Global, count: usize) -> Result<Option<Diagnostic<'d>>, AllocError>
    ensures { IfOk result (λ d. option_to_list (option_map data_of d) ≡ unshown_data count) }
{
    if count == 0 {
        return Ok(None);
    }
    Ok(Some(Diagnostic {
        severity: Severity::Information,
        message: Message::Plain(unshown_text(alloc, count)?),
        range: Range {
            start: BEFORE_ALL,
            end: BEFORE_ALL,
        },
        related: None,
    }))
}

/// What is said of so many faults that are not shown.
fn unshown_text(alloc: Global, count: usize) -> Result<String, AllocError>
    ensures { IfOk result (λ text. string_bytes text ≡ unshown_text count) }
{
    let mut buffer = Buffer::new();
    let mut text = String::from_str(alloc, buffer.format(count))?;
    if count == 1 {
        text.push_str(" more fault is not shown")?;
    } else {
        text.push_str(" more faults are not shown")?;
    }
    Ok(text)
}
