//! Lists, and their wants of memory.
ghost use Rattle.std.specs.Prelude.{◌≡◌, ◌+◌, ◌≤◌, OnOk, OnErr, IfOk, length};
ghost use Rattle.std.specs.List.{splice};

use crate::asserts::expect_eq;
use refusals::{ALL, begin, end};
use std::alloc::Global;
use std::process::Abort;
use std::test::Fail;
use x_text::{GapSeq, NoMemory, PlainSeq, Seq, SeqPatch};

/// Makes room and carries a change out, by what every sequence promises.
fn change<S: Seq<u32>>(
    seq: &mut S,
    at: usize,
    remove: usize,
    new: Vec<u32>,
) -> Result<u64, NoMemory>
    requires { at + remove ≤ length (S.list seq.old) }
    ensures list { OnOk result (S.list seq.new ≡ splice (S.list seq.old) at (at + remove) new.items) }
    ensures moved { IfOk result (λ count. count ≡ S.moves seq.old at remove) }
    ensures err { OnErr result (S.list seq.new ≡ S.list seq.old) }
{
    seq.reserve(new.len())?;
    Ok(seq.splice(at, remove, new))
}

/// Checks that the list has these entries.
fn expect_entries<S: Seq<u32>>(rt: &impl Abort, seq: &S, expected: &[u32]) {
    expect_eq(rt, seq.len(), expected.len());
    for (index, entry) in expected.iter().enumerate() {
        assert!(rt; seq.get(index) == Some(entry));
    }
}

/// Puts ten entries into an empty list.
fn fill<S: Seq<u32>>(rt: &impl Abort, alloc: Global, seq: &mut S) -> Result<(), Fail>
    ensures { OnOk result (length (S.list seq.new) ≡ 10) }
{
    let ten = Vec::from_slice(alloc, &[0, 1, 2, 3, 4, 5, 6, 7, 8, 9])?;
    assert!(rt; seq.len() == 0);
    change(seq, 0, 0, ten)?;
    assert!(rt; seq.len() == 10);
    Ok(())
}

/// Replaces two of ten entries by one, and then none behind it, and answers how many others each of that
/// moved.
fn replace_two<S: Seq<u32>>(rt: &impl Abort, alloc: Global, seq: &mut S) -> Result<(u64, u64), Fail>
    requires { length (S.list seq.old) ≡ 10 }
{
    let moved = change(seq, 3, 2, Vec::from_slice(alloc, &[30])?)?;
    expect_eq(rt, seq.len(), 9);
    let again = change(seq, 4, 0, Vec::new(alloc))?;
    expect_entries(rt, seq, &[0, 1, 2, 30, 5, 6, 7, 8, 9]);
    Ok((moved, again))
}

#[test]
fn carries_changes_out(rt: HostRuntime) -> Result<(), Fail> {
    let mut plain = PlainSeq::new(rt.alloc());
    fill(&rt, rt.alloc(), &mut plain)?;
    expect_eq(&rt, replace_two(&rt, rt.alloc(), &mut plain)?, (5, 5));
    let mut gap = GapSeq::new(rt.alloc());
    expect_eq(&rt, gap.seat(), 0);
    fill(&rt, rt.alloc(), &mut gap)?;
    expect_eq(&rt, gap.seat(), 10);
    expect_eq(&rt, replace_two(&rt, rt.alloc(), &mut gap)?, (5, 0));
    expect_eq(&rt, gap.seat(), 4);
    expect_eq(&rt, gap.iter().count(), 9);
    Ok(())
}

/// Replaces two of ten entries by one in room that is there, with every allocation refused, and answers how
/// many others that moved.
fn replace_two_in_room<S: Seq<u32>>(
    rt: &impl Abort,
    alloc: Global,
    seq: &mut S,
) -> Result<u64, Fail>
    requires { length (S.list seq.old) ≡ 10 }
{
    let one = Vec::from_slice(alloc, &[30])?;
    seq.reserve(1)?;
    begin(alloc, ALL)?;
    let moved = seq.splice(3, 2, one);
    expect_entries(rt, seq, &[0, 1, 2, 30, 5, 6, 7, 8, 9]);
    assert!(rt; seq.spare() >= 2);
    assert!(rt; !end(alloc));
    Ok(moved)
}

/// A list that is made empty, and one that is changed in room that is there, take no memory.
#[test]
fn bare_sequences(rt: HostRuntime) -> Result<(), Fail> {
    begin(rt.alloc(), ALL)?;
    let mut plain = PlainSeq::new(rt.alloc());
    let mut gap = GapSeq::new(rt.alloc());
    expect_eq(&rt, gap.seat(), 0);
    assert!(rt; !end(rt.alloc()));
    fill(&rt, rt.alloc(), &mut plain)?;
    expect_eq(&rt, replace_two_in_room(&rt, rt.alloc(), &mut plain)?, 5);
    fill(&rt, rt.alloc(), &mut gap)?;
    expect_eq(&rt, replace_two_in_room(&rt, rt.alloc(), &mut gap)?, 5);
    expect_eq(&rt, gap.seat(), 4);
    Ok(())
}

#[test]
fn makes_room(rt: HostRuntime) -> Result<(), Fail> {
    let mut plain: PlainSeq<u32> = PlainSeq::new(rt.alloc());
    expect_eq(&rt, plain.spare(), 0);
    plain.reserve(100)?;
    assert!(rt; plain.spare() >= 100);
    expect_eq(&rt, plain.reserve(usize::MAX), Err(NoMemory));
    let mut gap: GapSeq<u32> = GapSeq::new(rt.alloc());
    expect_eq(&rt, gap.spare(), 0);
    gap.reserve(100)?;
    assert!(rt; gap.spare() >= 100);
    expect_eq(&rt, gap.reserve(usize::MAX), Err(NoMemory));
    Ok(())
}

/// Makes a list of two entries, the seat of which lies between them, and makes room for more.
fn reserve_with_little_memory<S: Seq<u32>>(
    rt: &impl Abort,
    alloc: Global,
    seq: &mut S,
) -> Result<(), NoMemory> {
    change(seq, 0, 0, Vec::from_slice(alloc, &[1, 2, 3])?)?;
    expect_eq(rt, seq.len(), 3);
    seq.splice(1, 1, Vec::new(alloc));
    let answer = seq.reserve(1000);
    expect_entries(rt, seq, &[1, 3]);
    answer
}

#[test]
fn sweep_reserve_of_a_plain_seq(rt: HostRuntime) -> Result<(), Fail> {
    let alloc = rt.alloc();
    let mut seq = PlainSeq::new(alloc);
    if reserve_with_little_memory(&rt, alloc, &mut seq).is_ok() {
        println!(rt; "nothing was refused")?;
    }
    Ok(())
}

#[test]
fn sweep_reserve_of_a_gap_seq(rt: HostRuntime) -> Result<(), Fail> {
    let alloc = rt.alloc();
    let mut seq = GapSeq::new(alloc);
    let answer = reserve_with_little_memory(&rt, alloc, &mut seq);
    // Of two entries, or of none.
    expect_eq(&rt, seq.seat(), seq.len() / 2);
    if answer.is_ok() {
        println!(rt; "nothing was refused")?;
    }
    Ok(())
}

#[test]
fn a_patch_lends_and_gives_its_entries(rt: HostRuntime) -> Result<(), Fail> {
    let fresh = Vec::from_slice(rt.alloc(), &[7u32, 8])?;
    let patch = SeqPatch::new(1, 2, 3, fresh);
    expect_eq(
        &rt,
        (patch.at(), patch.removed(), patch.start(), patch.len()),
        (1, 2, 3, 2),
    );
    expect_eq(&rt, patch.fresh(), [7, 8].as_slice());
    expect_eq(&rt, patch.into_fresh().as_slice(), [7, 8].as_slice());
    Ok(())
}
