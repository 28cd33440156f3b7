//! What an edit leaves of the table of names.
use crate::definitions::definition_of;
use std::alloc::Global;
use std::process::Abort;
use std::test::Fail;
use x_hash::HashKey;
use x_item::Definition;
use x_sema::Names;
use x_text::NoMemory;
use x_uses::{ItemSplice, Uses};

/// Follows an edit that takes out some definitions and puts in others. Who declares `A` first then is known
/// before.
fn follow(
    rt: &impl Abort,
    alloc: Global,
    uses: &mut Uses,
    place: ItemSplice,
    gone: &[Option<&Definition>],
    fresh: &[Option<&Definition>],
) -> Result<(), NoMemory> {
    let gone = Uses::of(alloc, uses.hash_key(), gone)?;
    let fresh = Uses::of(alloc, uses.hash_key(), fresh)?;
    uses.make_room(alloc, &fresh)?;
    let first = uses.first_after(&fresh, place, b"A");
    uses.replace(place, &gone, &fresh);
    assert!(rt; uses.first(b"A") == first);
    Ok(())
}

/// Checks that a table that has followed edits has the first declarers of the definitions, and these users of
/// `A` and `T`.
fn expect_uses(
    rt: &impl Abort,
    alloc: Global,
    uses: &Uses,
    definitions: &[Option<&Definition>],
    users: (&[u32], &[u32]),
) -> Result<(), NoMemory> {
    let names = Names::of(alloc, definitions)?;
    assert!(rt; uses.first(b"A") == names.first(b"A"));
    assert!(rt; uses.first(b"T") == names.first(b"T"));
    assert!(rt; uses.first(b"TRUE") == None);
    assert!(rt; uses.users(b"A") == users.0);
    assert!(rt; uses.users(b"T") == users.1);
    Ok(())
}

/// The first declarer of `A` is taken away.
fn take_away(
    rt: &impl Abort,
    alloc: Global,
    uses: &mut Uses,
    [first, using, second]: [Option<&Definition>; 3],
) -> Result<(), NoMemory> {
    let place = ItemSplice {
        at: 0,
        removed: 1,
        added: 0,
    };
    follow(rt, alloc, uses, place, &[first], &[])?;
    expect_uses(rt, alloc, uses, &[None, using, second], (&[1, 2], &[1]))
}

/// It is put back, in front of an item that is written anew.
fn put_back(
    rt: &impl Abort,
    alloc: Global,
    uses: &mut Uses,
    [first, using, second]: [Option<&Definition>; 3],
) -> Result<(), NoMemory> {
    let place = ItemSplice {
        at: 1,
        removed: 1,
        added: 2,
    };
    follow(rt, alloc, uses, place, &[using], &[first, using])?;
    let after = [None, first, using, second];
    expect_uses(rt, alloc, uses, &after, (&[1, 2, 3], &[2]))
}

/// The table of three definitions follows both edits.
fn follow_both(
    rt: &impl Abort,
    alloc: Global,
    all: [Option<&Definition>; 3],
) -> Result<(), NoMemory> {
    let [first, using, second] = all;
    let before = [first, None, using, second];
    let mut uses = Uses::of(alloc, HashKey::of_bytes(b"edits"), &before)?;
    expect_uses(rt, alloc, &uses, &before, (&[0, 2, 3], &[2]))?;
    take_away(rt, alloc, &mut uses, all)?;
    put_back(rt, alloc, &mut uses, all)
}

fn follow_edits(rt: &impl Abort, alloc: Global) -> Result<(), NoMemory> {
    let first = definition_of(rt, alloc, b"const A = 1;")?;
    let using = definition_of(rt, alloc, b"typedef int T[A];")?;
    let second = definition_of(rt, alloc, b"enum e { A, TRUE = 1 };")?;
    follow_both(rt, alloc, [Some(&first), Some(&using), Some(&second)])
}

/// Run by itself with each allocation refused in turn: the table is right, or the test tells that memory ran
/// out.
#[test]
fn sweep_uses(rt: HostRuntime) -> Result<(), Fail> {
    if follow_edits(&rt, rt.alloc()).is_ok() {
        println!(rt; "nothing was refused")?;
    }
    Ok(())
}
