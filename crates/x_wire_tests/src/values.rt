//! Values that are read with every allocation refused in turn, and the text of a refusal.

use crate::asserts::{expect_eq, expect_text};
use crate::schemas::{nfs2_schema, schema_of};
use crate::streams::READDIR;
use refusals::{MOST_TURNS, begin, end};
use std::alloc::Global;
use std::process::Abort;
use std::test::Fail;
use x_wire::{ReadCode, ReadFault, Schema, dump};

/// How many nodes a value of a type has, and the level of the last.
fn count_nodes(
    alloc: Global,
    schema: &Schema,
    name: &[u8],
    message: &[u8],
) -> Result<(usize, Option<u32>), ReadFault> {
    let Some(id) = schema.type_named(name) else {
        return Ok((0, None));
    };
    let dump = dump(alloc, schema, id, message)?;
    let last = dump.get(dump.len().saturating_sub(1));
    Ok((dump.len(), last.map(|node| node.level)))
}

/// Reads a value with one allocation refused after another, and after a refusal with memory.
fn read_with_little_memory(
    rt: &impl Abort,
    alloc: Global,
    schema: &Schema,
    (name, message): (&[u8], &[u8]),
    wanted: Result<(usize, Option<u32>), ReadFault>,
) -> Result<usize, Fail> {
    for turn in 0..MOST_TURNS {
        begin(alloc, turn)?;
        let answer = count_nodes(alloc, schema, name, message);
        let refused = end(alloc);
        if answer != wanted {
            assert!(rt; refused && answer == fault(0, ReadCode::NoMemory));
            expect_eq(rt, count_nodes(alloc, schema, name, message), wanted);
        }
        if !refused {
            return Ok(turn);
        }
    }
    panic!(rt; "reading never ends")
}

fn fault(at: usize, code: ReadCode) -> Result<(usize, Option<u32>), ReadFault> {
    Err(ReadFault { at, code })
}

/// A list of so many links.
fn links(alloc: Global, count: u32) -> Result<Vec<u8>, Fail> {
    let mut list = Vec::new(alloc);
    for _ in 0..count {
        list.extend_from_slice(&[0, 0, 0, 1])?;
    }
    list.extend_from_slice(&[0; 4])?;
    Ok(list)
}

/// A short list of links, one of as many as may be open at once, and one of one more.
#[test]
fn refused_values(rt: HostRuntime) -> Result<(), Fail> {
    let rows = [
        (2, Ok((6, Some(5)))),
        (65_536, Ok((131_074, Some(131_073)))),
        (65_537, fault(262_144, ReadCode::TooDeep)),
    ];
    for (count, wanted) in rows {
        let turns = read_links(&rt, rt.alloc(), count, wanted)?;
        println!(rt; "turns: {turns}")?;
    }
    let turns = read_reply(&rt, rt.alloc())?;
    println!(rt; "turns: {turns}")?;
    Ok(())
}

fn read_links(
    rt: &impl Abort,
    alloc: Global,
    count: u32,
    wanted: Result<(usize, Option<u32>), ReadFault>,
) -> Result<usize, Fail> {
    let schema = schema_of(alloc, b"struct l { l *n; };")?;
    let list = links(alloc, count)?;
    read_with_little_memory(rt, alloc, &schema, (b"l", &list), wanted)
}

/// The results of a call of READDIR.
fn read_reply(rt: &impl Abort, alloc: Global) -> Result<usize, Fail> {
    let schema = nfs2_schema(alloc)?;
    let reply = (b"readdirres".as_slice(), &READDIR[120..]);
    read_with_little_memory(rt, alloc, &schema, reply, Ok((15, Some(2))))
}

#[test]
fn a_refusal_has_its_text(rt: HostRuntime) -> Result<(), Fail> {
    let rows = [
        (ReadCode::Short, "50 Short at 4"),
        (ReadCode::BadBool, "51 BadBool at 4"),
        (ReadCode::BadEnum, "52 BadEnum at 4"),
        (ReadCode::NoArm, "53 NoArm at 4"),
        (ReadCode::TooMany, "54 TooMany at 4"),
        (ReadCode::BadPad, "55 BadPad at 4"),
        (ReadCode::TooDeep, "56 TooDeep at 4"),
        (ReadCode::Trailing, "57 Trailing at 4"),
        (ReadCode::NoMemory, "58 NoMemory at 4"),
    ];
    for (code, wanted) in rows {
        expect_text(&rt, rt.alloc(), &ReadFault { at: 4, code }, wanted)?;
    }
    Ok(())
}
