//! Definitions of texts.

use std::alloc::Global;
use std::process::Abort;
use x_item::{Definition, Parsed, parse_item};
use x_lex::lex;
use x_text::{Meter, NoMemory, Source};

/// The definition that the text is.
pub(crate) fn definition_of(
    rt: &impl Abort,
    alloc: Global,
    text: &[u8],
) -> Result<Definition, NoMemory> {
    let mut meter = Meter::new();
    let Ok(source) = Source::from_bytes(alloc, text) else {
        return Err(NoMemory);
    };
    let tokens = lex(alloc, &source, &mut meter)?;
    let mut item = Vec::new(alloc);
    for token in tokens.iter(&source) {
        item.push(token)?;
    }
    match parse_item(alloc, &item, &mut meter)? {
        Parsed::Def(definition) => Ok(definition),
        _ => panic!(rt; "the text is no definition"),
    }
}
