//! What the tables of a definition hash by where nobody hands a key over.

use std::alloc::Global;
use std::hash::{DefaultHasher, Hasher};
use x_hash::HashKey;
use x_outline::{BodyAt, Members, Outline, members};
use x_text::NoMemory;
use x_trees::Value;

/// Feeds a hasher the names of a body's fields and the spellings of its cases.
fn feed_body(hasher: &mut DefaultHasher, body: &BodyAt) {
    for field in &body.fields {
        hasher.write(field.name);
    }
    for case in &body.cases {
        let (Value::Number(spelling) | Value::Named(spelling)) = case.value;
        hasher.write(spelling);
    }
}

/// Feeds a hasher the names and the numbers of versions or of procedures.
fn feed_members(hasher: &mut DefaultHasher, members: &Members) {
    for name in &members.names {
        hasher.write(name.name);
    }
    for number in &members.numbers {
        hasher.write(number.text);
    }
}

/// A key that is made of all names and numbers which a table of the definition may have.
pub fn key_of(alloc: Global, outline: &Outline) -> Result<HashKey, NoMemory> {
    let mut hasher = DefaultHasher::new();
    for declared in &outline.declared {
        hasher.write(&declared.name);
    }
    for mention in &outline.mentioned {
        hasher.write(mention.name);
    }
    for body in &outline.bodies {
        feed_body(&mut hasher, body);
    }
    for group in &members(alloc, outline.definition)? {
        feed_members(&mut hasher, group);
    }
    Ok(HashKey::of_hasher(hasher))
}
