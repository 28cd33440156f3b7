//! JSON lists, as they are written entry by entry.

ghost use Rattle.std.specs.Prelude.{◌≡◌, ◌++◌, OnOk, decimal};
ghost use Rattle.x_frames.specs.ListTexts.{ended};

use itoa::Buffer;
use x_text::NoMemory;

/// Adds a number.
pub fn write_number(text: &mut Vec<u8>, number: usize) -> Result<(), NoMemory>
    ensures { OnOk result (text.new.items ≡ text.old.items ++ decimal number) }
{
    let mut buffer = Buffer::new();
    text.extend_from_slice(buffer.format(number).as_bytes())?;
    Ok(())
}

/// Ends a list, each entry of which was written with a comma behind it.
pub fn end_list(text: &mut Vec<u8>) -> Result<(), NoMemory>
    ensures { OnOk result (text.new.items ≡ ended text.old.items) }
{
    if text.last() == Some(&b',') {
        text.pop();
    }
    text.push(b']')?;
    Ok(())
}
