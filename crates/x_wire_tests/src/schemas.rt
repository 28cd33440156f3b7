//! The types of texts without faults, without sessions over them.

use std::alloc::Global;
use std::test::Fail;
use x_hash::HashKey;
use x_item::{Definition, Parsed, next_item, parse_item};
use x_lex::lex;
use x_text::{Meter, Source};
use x_wire::{NFS2_X, Schema};

/// The types of NFS version 2.
pub fn nfs2_schema(alloc: Global) -> Result<Schema, Fail> {
    schema_of(alloc, NFS2_X)
}

/// The types of a text.
pub fn schema_of(alloc: Global, text: &[u8]) -> Result<Schema, Fail> {
    let definitions = definitions_of(alloc, text)?;
    let mut lent = Vec::new(alloc);
    for definition in &definitions {
        lent.push(Some(definition))?;
    }
    Ok(Schema::of(alloc, HashKey::of_bytes(text), &lent)?)
}

/// The definitions of a text.
fn definitions_of(alloc: Global, text: &[u8]) -> Result<Vec<Definition>, Fail> {
    let mut meter = Meter::new();
    let source = Source::from_bytes(alloc, text)?;
    let tokens = lex(alloc, &source, &mut meter)?;
    let mut walk = tokens.iter(&source);
    let mut item = Vec::new(alloc);
    let mut definitions = Vec::new(alloc);
    for _ in 0..text.len() {
        if !next_item(&mut item, &mut walk)? {
            break;
        }
        if let Parsed::Def(definition) = parse_item(alloc, &item, &mut meter)? {
            definitions.push(definition)?;
        }
    }
    Ok(definitions)
}
