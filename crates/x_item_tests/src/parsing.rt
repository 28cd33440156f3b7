//! What items parse to.
use std::alloc::Global;
use std::test::Fail;
use x_item::{Definition, FaultCode, NameKind, Parsed, Use, declares, mentions, parse_item};
use x_lex::{Kind, lex};
use x_text::{Meter, NoMemory, Source};

/// Parses a text that is one item, with whatever memory there is.
fn parse_with_little_memory(alloc: Global, text: &[u8]) -> Result<Parsed, NoMemory> {
    let mut meter = Meter::new();
    let Ok(source) = Source::from_bytes(alloc, text) else {
        return Err(NoMemory);
    };
    let tokens = lex(alloc, &source, &mut meter)?;
    let mut item = Vec::new(alloc);
    for token in tokens.iter(&source) {
        item.push(token)?;
    }
    parse_item(alloc, &item, &mut meter)
}

/// A name that a definition declares: its word, and what it is.
type Declared = (usize, &'static [u8], NameKind);

/// A name that it uses.
type Mentioned = (usize, &'static [u8], Use);

/// Whether a definition declares and uses these names, in this order.
fn has_names(
    alloc: Global,
    definition: &Definition,
    (declared, mentioned): (&[Declared], &[Mentioned]),
) -> Result<bool, NoMemory> {
    let names = declares(alloc, definition)?;
    let uses = mentions(alloc, definition)?;
    let mut alike = names.len() == declared.len() && uses.len() == mentioned.len();
    for (name, wanted) in names.iter().zip(declared.iter()) {
        alike &= (name.word, name.name.as_slice(), name.kind) == *wanted;
    }
    for (name, wanted) in uses.iter().zip(mentioned.iter()) {
        alike &= (name.word, name.name, name.usage) == *wanted;
    }
    Ok(alike)
}

/// The same of a text that is a definition, and not so of any other.
fn text_has_names(
    alloc: Global,
    text: &[u8],
    names: (&[Declared], &[Mentioned]),
) -> Result<bool, NoMemory> {
    match parse_with_little_memory(alloc, text)? {
        Parsed::Def(definition) => has_names(alloc, &definition, names),
        _ => Ok(false),
    }
}

/// Run by itself with each allocation refused in turn: an answer is the wanted one, or tells that memory ran
/// out.
#[test]
fn sweep_parse_item(rt: HostRuntime) -> Result<(), Fail> {
    let text = b"union u switch (enum { A } d) { case A: struct { int b; } c<2>; default: void; };";
    let declared = [
        (1, b"u".as_slice(), NameKind::Union),
        (6, b"A".as_slice(), NameKind::Constant),
        (8, b"u_d".as_slice(), NameKind::Enum),
        (20, b"u_c".as_slice(), NameKind::Struct),
    ];
    let mentioned = [(12, b"A".as_slice(), Use::Value)];
    match text_has_names(rt.alloc(), text, (&declared, &mentioned)) {
        Ok(alike) => {
            assert!(rt; alike);
            println!(rt; "nothing was refused")?;
        }
        Err(NoMemory) => {}
    }
    Ok(())
}

/// The same of another text.
#[test]
fn sweep_names(rt: HostRuntime) -> Result<(), Fail> {
    let text = b"struct s { struct { enum { A = N } c; t d; } *b; };";
    let declared = [
        (1, b"s".as_slice(), NameKind::Struct),
        (7, b"A".as_slice(), NameKind::Constant),
        (11, b"s_b_c".as_slice(), NameKind::Enum),
        (18, b"s_b".as_slice(), NameKind::Struct),
    ];
    let mentioned = [
        (9, b"N".as_slice(), Use::Value),
        (13, b"t".as_slice(), Use::ByValue),
    ];
    match text_has_names(rt.alloc(), text, (&declared, &mentioned)) {
        Ok(alike) => {
            assert!(rt; alike);
            println!(rt; "nothing was refused")?;
        }
        Err(NoMemory) => {}
    }
    Ok(())
}

#[test]
fn a_word_of_no_use_has_a_code_of_its_own(rt: HostRuntime) {
    let rows = [
        (Kind::BadByte, FaultCode::BadByte),
        (Kind::BadNumber, FaultCode::BadNumber),
        (Kind::OpenComment, FaultCode::OpenComment),
        (Kind::Directive, FaultCode::Directive),
        (Kind::Name, FaultCode::Syntax),
    ];
    for (kind, code) in rows {
        assert!(rt; FaultCode::of_word(kind) == code);
    }
}
