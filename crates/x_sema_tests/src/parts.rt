//! The parts of a schema, by its public calls alone.
use crate::definitions::definition_of;
use std::process::Abort;
use std::test::Fail;
use x_hash::HashKey;
use x_schema::{Arm, Form, Schema};

/// Checks the names and the numbers of an enum.
fn expect_enumerators(rt: &impl Abort, schema: &Schema) {
    let Some(id) = schema.type_named(b"E") else {
        panic!(rt; "there is no such type");
    };
    let Form::Enum(names) = schema.form(id) else {
        panic!(rt; "it is no enum");
    };
    assert!(rt; names.len() == 2);
    assert!(rt; names.get(2).is_none());
    let Some((word, name)) = names.get(1) else {
        panic!(rt; "it has no second name");
    };
    assert!(rt; (word, schema.name(name)) == (7, b"B".as_slice()));
}

/// Checks what a union's arms hold, and where a link in it leads.
fn expect_arms(rt: &impl Abort, schema: &Schema) {
    let Some(id) = schema.type_named(b"U") else {
        panic!(rt; "there is no such type");
    };
    let Form::Union(discriminant, arms) = schema.form(id) else {
        panic!(rt; "it is no union");
    };
    assert!(rt; schema.name(discriminant.name) == b"e".as_slice());
    assert!(rt; matches!(schema.form_at(discriminant.form), Form::Enum(_)));
    assert!(rt; arms.case_count() == 1);
    let Some((1, Arm::Of(next))) = arms.case(0) else {
        panic!(rt; "its case holds nothing");
    };
    assert!(rt; schema.name(next.name) == b"next".as_slice());
    let Form::Optional(link) = schema.form_at(next.form) else {
        panic!(rt; "it is no link");
    };
    assert!(rt; schema.target(*link) == id.form());
    let Some(Arm::Of(other)) = arms.default() else {
        panic!(rt; "its default holds nothing");
    };
    assert!(rt; schema.name(other.name) == b"x".as_slice());
}

#[test]
fn forms_lead_to_their_parts(rt: HostRuntime) -> Result<(), Fail> {
    let alloc = rt.alloc();
    let colours = definition_of(&rt, alloc, b"enum E { A = 1, B = 7 };")?;
    let list = definition_of(
        &rt,
        alloc,
        b"union U switch (E e) { case A: U *next; default: int x; };",
    )?;
    let schema = Schema::of(
        alloc,
        HashKey::of_bytes(b""),
        &[Some(&colours), Some(&list)],
    )?;
    expect_enumerators(&rt, &schema);
    expect_arms(&rt, &schema);
    Ok(())
}
