//! The edit that leads from one text to another.
ghost use Rattle.std.specs.Prelude.{◌≡◌, ◌≢◌, ◌+◌, ◌-◌, ◌<◌, ◌≤◌, length, take, drop, slice_index};
ghost use Rattle.x_text.specs.Edits.{change_of, edited_by, LiesWithin};
ghost use Rattle.x_directives.specs.declared.between.TheConstants.{BLOCK};

use x_text::Edit;

/// How many bytes are compared at once.
const BLOCK: usize = 4096;

/// An edit that makes `new` of `old`: it changes what lies between their longest common front and the longest
/// common rear of what is left.
pub fn edit_between<'n>(old: &[u8], new: &'n [u8]) -> Edit<'n>
    ensures within { LiesWithin (change_of old.now result) }
    ensures makes { edited_by (change_of old.now result) ≡ new.now }
    ensures front { result.start < length old.now → result.start < length new.now
        → slice_index old.now result.start ≢ slice_index new.now result.start }
    ensures rear { let put = result.insert.now in result.start < result.end → 0 < length put
        → slice_index old.now (result.end - 1) ≢ slice_index put (length put - 1) }
{
    let start = front_length(old, new);
    let rear = rear_length(&old[start..], &new[start..]);
    Edit {
        start,
        end: old.len() - rear,
        insert: &new[start..new.len() - rear],
    }
}

/// How many bytes the texts have in common at the front.
fn front_length(old: &[u8], new: &[u8]) -> usize
    ensures in_old { result ≤ length old.now }
    ensures in_new { result ≤ length new.now }
    ensures same { take result old.now ≡ take result new.now }
    ensures longest { result < length old.now → result < length new.now
        → slice_index old.now result ≢ slice_index new.now result }
{
    let most = old.len().min(new.len());
    let mut same = 0;
    'by_block: while most - same >= BLOCK && block(old, same) == block(new, same) {
        same += BLOCK;
    }
    'by_byte: while same < most && old[same] == new[same] {
        same += 1;
    }
    same
}

/// How many bytes the texts have in common at the rear.
fn rear_length(old: &[u8], new: &[u8]) -> usize
    ensures in_old { result ≤ length old.now }
    ensures in_new { result ≤ length new.now }
    ensures same { drop (length old.now - result) old.now ≡ drop (length new.now - result) new.now }
    ensures longest { result < length old.now → result < length new.now
        → slice_index old.now (length old.now - result - 1)
        ≢ slice_index new.now (length new.now - result - 1) }
{
    let most = old.len().min(new.len());
    let (old_end, new_end) = (old.len(), new.len());
    let mut same = 0;
    'by_block: while most - same >= BLOCK
        && block(old, old_end - same - BLOCK) == block(new, new_end - same - BLOCK)
    {
        same += BLOCK;
    }
    'by_byte: while same < most && old[old_end - same - 1] == new[new_end - same - 1] {
        same += 1;
    }
    same
}

/// The block from a place on.
fn block(text: &[u8], at: usize) -> &[u8]
    requires { at + BLOCK ≤ length text.now }
    ensures { result.now ≡ take BLOCK (drop at text.now) }
{
    &text[at..at + BLOCK]
}
