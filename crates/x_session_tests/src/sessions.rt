//! Sessions and their answers.
use crate::asserts::expect_eq;
use refusals::{ALL, begin, end};
use std::process::Abort;
use std::test::Fail;
use x_lex::Kind;
use x_script::dump_words;
use x_sema::Form;
use x_session::{FaultCode, Schema, SchemaFault, Session, Which, Work};
use x_text::{Edit, MemSink, TextFault, WriteFault};

/// Checks the token and the definition of a session of the text `const A = 12;;`.
fn expect_parts(rt: &impl Abort, session: &Session) {
    let token = session
        .token(6)
        .map(|token| (token.kind, token.start, token.end));
    expect_eq(rt, token, Some((Kind::Number, 10, 12)));
    let bytes = session.token(6).map(|token| token.text);
    expect_eq(rt, bytes, Some(b"12".as_slice()));
    assert!(rt; session.definition(0).is_some() && session.definition(1).is_none());
}

/// Checks its fault.
fn expect_fault(rt: &impl Abort, session: &Session) {
    let fault = session.fault(0);
    let place = fault.map(|fault| (fault.item, fault.token));
    expect_eq(rt, place, Some((1, 0)));
    let told = fault.map(|fault| (fault.line, fault.col, fault.code));
    expect_eq(
        rt,
        told,
        Some((1, 14, FaultCode::Syntax(x_item::FaultCode::Syntax))),
    );
}

/// Checks how many tokens, items and faults it has.
fn expect_counts(rt: &impl Abort, session: &Session) {
    let counts = (
        session.token_count(),
        session.item_count(),
        session.fault_count(),
    );
    expect_eq(rt, counts, (9, 3, 1));
    let mut walked = 0usize;
    for _ in session.tokens() {
        walked = walked.saturating_add(1);
    }
    expect_eq(rt, walked, 9);
}

/// Checks that a sink of ten bytes has those of the header.
fn expect_ten_bytes(rt: &impl Abort, session: &Session) {
    let mut room = [0u8; 10];
    let mut sink = MemSink::new(&mut room, 256, 256);
    let answer = session.write_text(Which::Header, &mut sink);
    expect_eq(rt, answer, Err(WriteFault { written: 10 }));
    expect_eq(rt, sink.bytes(), b"/* Generat".as_slice());
}

/// Each query, with every allocation refused: none takes memory.
#[test]
fn bare_queries(rt: HostRuntime) -> Result<(), Fail> {
    let session = Session::open(rt.alloc(), b"t", b"const A = 12;;")?;
    begin(rt.alloc(), ALL)?;
    expect_eq(&rt, session.bytes(), b"const A = 12;;".as_slice());
    expect_counts(&rt, &session);
    expect_parts(&rt, &session);
    expect_fault(&rt, &session);
    expect_ten_bytes(&rt, &session);
    expect_eq(&rt, session.schema().err(), Some(SchemaFault::Faulty));
    assert!(rt; !end(rt.alloc()));
    Ok(())
}

/// The edit of `const A = 1;` that makes a 12 of its number.
const LONGER: Edit<'static> = Edit {
    start: 11,
    end: 11,
    insert: b"2",
};

/// The edit that makes a 13 of the 12.
const OTHER: Edit<'static> = Edit {
    start: 11,
    end: 12,
    insert: b"3",
};

/// Checks that of two edits both are done, with the work of both: the first goes to its places from the ends
/// of tokens and items, and the second finds all there.
fn expect_both(rt: &impl Abort, session: &mut Session) {
    let both = Work {
        lexed: 2,
        parsed: 2,
        checked: 2,
        moved: 2,
    };
    expect_eq(rt, session.apply_all(&[LONGER, OTHER]), Ok(both));
    expect_eq(rt, session.bytes(), b"const A = 13;".as_slice());
}

/// Checks that of two edits the second is refused, which lies outside of the text, and the first is done.
fn expect_stop(rt: &impl Abort, session: &mut Session) {
    let outside = Edit {
        start: 14,
        end: 15,
        insert: b"",
    };
    let answer = session.apply_all(&[LONGER, outside]);
    expect_eq(rt, answer.err(), Some((1, TextFault::BadRange)));
    expect_eq(rt, session.bytes(), b"const A = 12;".as_slice());
}

#[test]
fn edits_stop_at_the_first_that_is_refused(rt: HostRuntime) -> Result<(), Fail> {
    let mut session = Session::open(rt.alloc(), b"t", b"const A = 1;")?;
    expect_stop(&rt, &mut session);
    let mut session = Session::open(rt.alloc(), b"t", b"const A = 1;")?;
    expect_both(&rt, &mut session);
    Ok(())
}

/// Checks that procedure 1 is there, and no other, and what type stands under a name.
fn expect_types(rt: &impl Abort, schema: &Schema) {
    let name = schema.procedure(3, 2, 1).map(|procedure| procedure.name);
    expect_eq(rt, name, Some(b"F".as_slice()));
    assert!(rt; schema.procedure(3, 2, 2).is_none() && schema.type_named(b"F").is_none());
    let Some(id) = schema.type_named(b"T") else {
        panic!(rt; "there is no such type");
    };
    assert!(rt; matches!(schema.form(id), Form::FixedOpaque(5)));
}

/// Types and procedures, and the words of a line that asks for a value, with every allocation refused: to
/// find them takes no memory.
#[test]
fn bare_types(rt: HostRuntime) -> Result<(), Fail> {
    let text = b"typedef opaque T[5]; program P { version V { T F(int, string) = 1; } = 2; } = 3;";
    let session = Session::open(rt.alloc(), b"t", text)?;
    let schema = session.schema()?;
    begin(rt.alloc(), ALL)?;
    expect_types(&rt, &schema);
    let words = (b"T".as_slice(), b"00".as_slice());
    expect_eq(&rt, dump_words(b"dump T 00"), Some(words));
    expect_eq(&rt, dump_words(b"dump T 0"), None);
    assert!(rt; !end(rt.alloc()));
    Ok(())
}
