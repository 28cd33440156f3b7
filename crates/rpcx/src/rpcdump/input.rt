//! The bytes of a file that is one message or one value.

ghost use Rattle.std.specs.Prelude.{◌<◌, length, IfOk, IfErr};
ghost use Rattle.rpcx.specs.Dumping.{ReadsAll, ReadsOn, StopsAt};

use crate::rpcdump::halt::Halt;
use std::alloc::Global;
use x_text::{MAX_TEXT, Tap};

/// How many bytes are read at a time.
const BLOCK: usize = 65_536;

/// Reads all bytes of a tap, but no more of them than show that there are too many.
pub fn read_all<I: Tap>(alloc: Global, input: &mut I) -> Result<Vec<u8>, Halt>
    ensures read { IfOk result (λ bytes. ReadsAll bytes.items (I.state input.old) (I.state input.new)) }
    ensures stops { IfErr result (StopsAt (I.state input.old) (I.state input.new)) }
{
    match Vec::from_elem(alloc, 0, BLOCK) {
        Ok(mut block) => read_by_blocks(alloc, &mut block, input),
        Err(_) => Err(Halt::NoRoom),
    }
}

/// Does so by way of a block.
fn read_by_blocks<I: Tap>(alloc: Global, block: &mut [u8], input: &mut I) -> Result<Vec<u8>, Halt>
    requires { 0 < length block.old }
    ensures read { IfOk result (λ bytes. ReadsAll bytes.items (I.state input.old) (I.state input.new)) }
    ensures stops { IfErr result (StopsAt (I.state input.old) (I.state input.new)) }
{
    let mut bytes = Vec::new(alloc);
    while bytes.len() <= MAX_TEXT {
        let room = block.len().min(MAX_TEXT + 1 - bytes.len());
        if !read_more(&mut block[..room], &mut bytes, input)? {
            return Ok(bytes);
        }
    }
    Err(Halt::TooLarge)
}

/// Reads bytes of a tap by way of a buffer, puts them behind those that are there, and answers whether any
/// were left.
fn read_more<I: Tap>(buffer: &mut [u8], bytes: &mut Vec<u8>, input: &mut I) -> Result<bool, Halt>
    requires { 0 < length buffer.old }
    ensures { ReadsOn bytes.old.items bytes.new.items (I.state input.old) (I.state input.new) result }
{
    let Ok(count) = input.take(buffer) else {
        return Err(Halt::Unread);
    };
    if count == 0 {
        return Ok(false);
    }
    match bytes.extend_from_slice(&buffer[..count]) {
        Ok(()) => Ok(true),
        Err(_) => Err(Halt::NoRoom),
    }
}
