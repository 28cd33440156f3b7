//! An edit of a text.
ghost use Rattle.std.specs.Prelude.{◌≡◌, ◌+◌, ◌-◌, ◌≤◌, ◌++◌, IfOk, OnOk, OnErr, length, take, drop};
ghost use Rattle.std.specs.Prelude.{vec_len, vec_capacity};
ghost use Rattle.x_text.specs.Edits.{change_of, edited_by, LiesWithin, FitsText};

use crate::NoMemory;
use std::alloc::Global;

/// A change of a text: other bytes take the place of those from `start` to before `end`.
#[derive(Clone, Copy, Debug)]
pub struct Edit<'e> {
    pub start: usize,
    pub end: usize,
    /// The bytes that take their place.
    pub insert: &'e [u8],
}

/// The bytes that the edit leaves of these.
pub(crate) fn edited(alloc: Global, bytes: &[u8], edit: &Edit) -> Result<Vec<u8>, NoMemory>
    requires within { LiesWithin (change_of bytes.now edit.now) }
    ensures { IfOk result (λ left. left.items ≡ edited_by (change_of bytes.now edit.now)) }
{
    let length = bytes.len() - (edit.end - edit.start);
    let mut left = Vec::with_capacity(alloc, length.saturating_add(edit.insert.len()))?;
    left.extend_from_slice(&bytes[..edit.start])?;
    left.extend_from_slice(edit.insert)?;
    left.extend_from_slice(&bytes[edit.end..])?;
    Ok(left)
}

/// Makes the bytes that the edit leaves in a buffer that has the first `kept` of these already, which stay.
/// After [`NoMemory`] it has those alone.
pub(crate) fn write_edited(
    left: &mut Vec<u8>,
    kept: usize,
    bytes: &[u8],
    edit: &Edit,
) -> Result<(), NoMemory>
    requires fits { FitsText (change_of bytes.now edit.now) }
    requires before { kept ≤ edit.now.start }
    requires same { take kept left.old.items ≡ take kept bytes.now }
    ensures ok { OnOk result (left.new.items ≡ edited_by (change_of bytes.now edit.now)) }
    ensures err { OnErr result (left.new.items ≡ take kept bytes.now) }
{
    let front = &bytes[kept..edit.start];
    let rear = &bytes[edit.end..];
    left.truncate(kept);
    left.reserve(front.len() + edit.insert.len() + rear.len())?;
    left.extend_from_slice(front).unwrap();
    left.extend_from_slice(edit.insert).unwrap();
    left.extend_from_slice(rear).unwrap();
    Ok(())
}

/// Carries the edit out where there is room for the text that it leaves, and takes no memory.
pub(crate) fn edit_in_room(bytes: &mut Vec<u8>, edit: &Edit)
    requires within { LiesWithin (change_of bytes.old.items edit.now) }
    requires room { vec_len bytes.old + length edit.now.insert.now
        ≤ vec_capacity bytes.old + (edit.now.end - edit.now.start) }
    ensures { bytes.new.items ≡ edited_by (change_of bytes.old.items edit.now) }
{
    // First bytes are written over others. Then there is a gap to close, or there are bytes left to insert,
    // or neither.
    let over = edit.insert.len().min(edit.end - edit.start);
    let (front, rest) = edit.insert.split_at(over);
    let at = edit.start + over;
    write_over(bytes, edit.start, front);
    if at < edit.end {
        close_gap(bytes, at, edit.end);
    } else {
        insert_in_room(bytes, at, rest);
    }
}

/// Writes these bytes over as many others.
fn write_over(bytes: &mut Vec<u8>, at: usize, front: &[u8])
    requires { at + length front.now ≤ vec_len bytes.old }
    ensures items { bytes.new.items
        ≡ take at bytes.old.items ++ front.now ++ drop (at + length front.now) bytes.old.items }
    ensures capacity { vec_capacity bytes.new ≡ vec_capacity bytes.old }
{
    bytes[at..at + front.len()].copy_from_slice(front);
}

/// Takes the bytes from `at` to before `end` out.
fn close_gap(bytes: &mut Vec<u8>, at: usize, end: usize)
    requires forward { at ≤ end }
    requires within { end ≤ vec_len bytes.old }
    ensures { bytes.new.items ≡ take at bytes.old.items ++ drop end bytes.old.items }
{
    let length = bytes.len() - (end - at);
    bytes[at..].rotate_left(end - at);
    bytes.truncate(length);
}

/// Inserts bytes that there is room for.
fn insert_in_room(bytes: &mut Vec<u8>, at: usize, more: &[u8])
    requires within { at ≤ vec_len bytes.old }
    requires room { vec_len bytes.old + length more.now ≤ vec_capacity bytes.old }
    ensures { bytes.new.items ≡ take at bytes.old.items ++ more.now ++ drop at bytes.old.items }
{
    bytes.extend_from_slice(more).unwrap();
    bytes[at..].rotate_right(more.len());
}
