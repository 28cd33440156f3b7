//! A text without its directives.
ghost use Rattle.std.specs.Prelude.{◌≡◌, ◌++◌, if◌then◌else◌, slice_index, IfOk, OnOk};
ghost use Rattle.x_directives.specs.Blanked.{stays, blanked, blanked_bytes, blanked_line};
ghost use Rattle.x_directives.specs.Seen.{seen};

use crate::lines::{Line, Lines, has_no_hash};
use std::alloc::Global;
use x_text::NoMemory;

/// The text with each line of a directive blanked: a space stands in place of each byte that is no tab, no
/// delimiter of a comment and not of the line's end.
///
/// # Errors
/// Memory ran out.
pub fn blanked(alloc: Global, text: &[u8]) -> Result<Vec<u8>, NoMemory>
    ensures { IfOk result (λ bytes. bytes.items ≡ blanked text.now) }
{
    let mut bytes = Vec::with_capacity(alloc, text.len())?;
    if has_no_hash(text) {
        bytes.extend_from_slice(text)?;
        return Ok(bytes);
    }
    add_lines(&mut bytes, text)?;
    Ok(bytes)
}

/// Adds the text with each line of a directive blanked.
fn add_lines(bytes: &mut Vec<u8>, text: &[u8]) -> Result<(), NoMemory>
    ensures { OnOk result (bytes.new.items ≡ bytes.old.items ++ blanked text.now) }
{
    let mut lines = Lines::of(text);
    'lines: while let Some(line) = lines.next_line() {
        add_line(bytes, &line)?;
    }
    Ok(())
}

/// Adds the line, blanked if it is of a directive.
#[tactic(auto, unfolding(crate::specs::Blanked::blanked_line))]
fn add_line(bytes: &mut Vec<u8>, line: &Line) -> Result<(), NoMemory>
    ensures { OnOk result (bytes.new.items ≡ bytes.old.items ++ blanked_line (seen line.now)) }
{
    if line.part.is_inside() {
        return add_blanked(bytes, line.bytes);
    }
    bytes.extend_from_slice(line.bytes)?;
    Ok(())
}

/// Adds the line, blanked.
fn add_blanked(bytes: &mut Vec<u8>, line: &[u8]) -> Result<(), NoMemory>
    ensures { OnOk result (bytes.new.items ≡ bytes.old.items ++ blanked_bytes 0 line.now) }
{
    let mut before = 0;
    for (at, byte) in line.iter().enumerate() {
        bytes.push(blanked_byte(before, *byte, byte_at(line, at + 1)))?;
        before = *byte;
    }
    Ok(())
}

/// The byte at a place, or zero past the end.
fn byte_at(line: &[u8], at: usize) -> u8
    ensures { result ≡ slice_index line.now at }
{
    line.get(at).copied().unwrap_or(0)
}

/// What a byte of a directive becomes, between these two.
fn blanked_byte(before: u8, byte: u8, after: u8) -> u8
    ensures { result ≡ (if stays before byte after then byte else 32) }
{
    if stays(before, byte, after) {
        byte
    } else {
        b' '
    }
}

/// Whether a byte of a directive stays, between these two.
#[tactic(auto, unfolding(crate::specs::Blanked::stays))]
fn stays(before: u8, byte: u8, after: u8) -> bool
    ensures { result ≡ stays before byte after }
{
    match byte {
        b'\t' | b'\n' => true,
        b'\r' => after == b'\n',
        b'/' => before == b'*' || after == b'*',
        b'*' => before == b'/' || after == b'/',
        _ => false,
    }
}
