//! One definition by the calls below a session: what checking it finds, and what is generated of it.

use crate::asserts::expect_eq;
use refusals::{ALL, begin, end};
use std::alloc::Global;
use std::process::Abort;
use std::test::Fail;
use x_gen::{Pieces, render};
use x_item::{Definition, NameKind};
use x_sema::{Checked, Meaning, Names, RuleCode, View, WordFault, check_item};
use x_session::{Session, Which};
use x_text::Meter;

const OWN: View<'static> = View::Own {
    kind: NameKind::Constant,
    lifted: false,
};

/// Checks what is found of `const A = 12;`, and what is generated of it.
fn expect_constant(rt: &impl Abort, alloc: Global, definition: &Definition) -> Result<(), Fail> {
    let checked = check_item(alloc, definition, &[OWN], &mut Meter::new())?;
    expect_generated(rt, alloc, definition, &checked)
}

fn expect_generated(
    rt: &impl Abort,
    alloc: Global,
    definition: &Definition,
    checked: &Checked,
) -> Result<(), Fail> {
    let pieces = render(alloc, definition, checked)?;
    expect_parts(rt, alloc, checked, &pieces)
}

fn expect_parts(
    rt: &impl Abort,
    alloc: Global,
    checked: &Checked,
    pieces: &Pieces,
) -> Result<(), Fail> {
    begin(alloc, ALL)?;
    assert!(rt; checked.faults().is_empty());
    expect_eq(rt, checked.meaning(0), Meaning::Constant(12));
    expect_eq(rt, pieces.forward(), b"".as_slice());
    expect_eq(
        rt,
        pieces.piece(Which::Header),
        b"#define A 12\n\n".as_slice(),
    );
    expect_eq(rt, pieces.piece(Which::Routines), b"".as_slice());
    assert!(rt; !end(alloc));
    Ok(())
}

const EARLIER: View<'static> = View::Earlier {
    kind: NameKind::Constant,
    lifted: false,
    meaning: Meaning::Constant(1),
};

/// Checks that a name which is declared before is a fault at the second word, and means nothing.
fn expect_duplicate(rt: &impl Abort, alloc: Global, definition: &Definition) -> Result<(), Fail> {
    let checked = check_item(alloc, definition, &[EARLIER], &mut Meter::new())?;
    expect_fault(rt, &checked, RuleCode::Duplicate);
    Ok(())
}

fn expect_fault(rt: &impl Abort, checked: &Checked, code: RuleCode) {
    expect_eq(
        rt,
        checked.faults(),
        [WordFault { word: 1, code }].as_slice(),
    );
    expect_eq(rt, checked.meaning(0), Meaning::Bad);
}

/// Checks who declares a name first.
fn expect_names(rt: &impl Abort, alloc: Global, definition: &Definition) -> Result<(), Fail> {
    let names = Names::of(alloc, &[None, Some(definition), Some(definition)])?;
    expect_first(rt, alloc, &names)
}

/// It is found with every allocation refused.
fn expect_first(rt: &impl Abort, alloc: Global, names: &Names) -> Result<(), Fail> {
    begin(alloc, ALL)?;
    let place = names.first(b"A").map(|first| (first.item, first.word));
    expect_eq(rt, place, Some((1, 1)));
    assert!(rt; names.first(b"B").is_none() && names.first(b"TRUE").is_none());
    assert!(rt; !end(alloc));
    Ok(())
}

#[test]
fn bare_definitions(rt: HostRuntime) -> Result<(), Fail> {
    let session = Session::open(rt.alloc(), b"t", b"const A = 12;")?;
    match session.definition(0) {
        Some(definition) => expect_definition(&rt, rt.alloc(), definition),
        None => panic!(rt; "the text is a definition"),
    }
}

fn expect_definition(rt: &impl Abort, alloc: Global, definition: &Definition) -> Result<(), Fail> {
    expect_constant(rt, alloc, definition)?;
    expect_duplicate(rt, alloc, definition)?;
    expect_names(rt, alloc, definition)
}
