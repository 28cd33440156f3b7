//! The cases of unions.

ghost use Rattle.std.specs.Prelude.{◌≡◌, ◌++◌, map, IfOk, OnOk};
ghost use Rattle.std.specs.List.{flat_map};
ghost use Rattle.x_rules.specs.Found.{case_numbers, repeated_cases};
ghost use Rattle.x_rules.specs.Cases.{is_outside, case_fault, has_fault, case_faults, bad_cases_of};
ghost use Rattle.x_rules.specs.KeptViews.{kept_class};
ghost use Rattle.x_rules.specs.Rules.{Ascends};
ghost use Rattle.x_outline.specs.Parts.{view_value_at};
ghost use Rattle.x_rules.specs.Tables.{OnNumbers, seen_by};

use super::classes::declaration_class;
use super::constants::Constants;
use super::found::add_fault;
use super::repeats::{Numbered, add_number, add_repeated_numbers};
use super::sights::Sights;
use crate::checked::OwnedClass;
use crate::fault::{RuleCode, WordFault};
use std::alloc::Global;
use x_numbers::{is_enum_number, is_word_number};
use x_outline::{BodyAt, ValueAt};
use x_text::NoMemory;
use x_trees::{Body, UnionBody};

/// The cases that have a number.
fn case_numbers(
    alloc: Global,
    cases: &[ValueAt],
    sights: &Sights,
    constants: &Constants,
) -> Result<Vec<Numbered>, NoMemory>
    ensures { IfOk result (λ list. OnNumbers constants.now (λ _ known.
        list.items ≡ case_numbers (seen_by sights.now) known (map view_value_at cases.now))) }
{
    let mut list = Vec::new(alloc);
    for case in cases {
        let number = constants.number_at(sights, case.word, case.value);
        add_number(&mut list, case.word, number)?;
    }
    Ok(list)
}

/// Adds the faults of cases whose number an earlier case of the union has.
pub fn add_repeated_cases(
    alloc: Global,
    faults: &mut Vec<WordFault>,
    bodies: &[BodyAt],
    sights: &Sights,
    constants: &Constants,
) -> Result<(), NoMemory>
    ensures { OnOk result (OnNumbers constants.now (λ _ known.
        faults.new.items ≡ faults.old.items
        ++ flat_map (λ b. repeated_cases (seen_by sights.now) known (map view_value_at b.cases.items))
        bodies.now)) }
{
    for body in bodies {
        let numbers = case_numbers(alloc, &body.cases, sights, constants)?;
        add_repeated_numbers(
            alloc,
            sights.hash_key,
            faults,
            &numbers,
            RuleCode::RepeatedCase,
        )?;
    }
    Ok(())
}

/// Whether no discriminant of the class has the number.
fn is_outside(class: &OwnedClass, number: i128) -> bool
    ensures { result ≡ is_outside (kept_class class.now) number }
{
    match class {
        OwnedClass::Other => false,
        OwnedClass::Signed => !is_enum_number(number),
        OwnedClass::Unsigned => !is_word_number(number),
        OwnedClass::Boolean => number != 0 && number != 1,
        OwnedClass::Enumeration(numbers) => !numbers.has(number),
    }
}

/// The fault of a case with the number.
fn case_fault(class: &OwnedClass, number: Option<i128>) -> Option<RuleCode>
    ensures { result ≡ case_fault (kept_class class.now) number }
{
    match number {
        Some(number) => {
            if is_outside(class, number) {
                Some(RuleCode::BadCase)
            } else {
                None
            }
        }
        None => None,
    }
}

/// Whether one of the faults, which ascend, stands at a word from `from` to before `to`.
fn has_fault(faults: &[WordFault], from: usize, to: usize) -> bool
    ensures { Ascends faults.now → result ≡ has_fault faults.now from to }
{
    let place = faults.partition_point(|fault| fault.word < from);
    match faults.get(place) {
        Some(fault) => fault.word < to,
        None => false,
    }
}

/// Adds the faults of cases of a discriminant of the class.
fn add_case_faults(
    faults: &mut Vec<WordFault>,
    class: &OwnedClass,
    cases: &[ValueAt],
    sights: &Sights,
    constants: &Constants,
) -> Result<(), NoMemory>
    ensures { OnOk result (OnNumbers constants.now (λ _ known.
        faults.new.items ≡ faults.old.items
        ++ case_faults (seen_by sights.now) known (kept_class class.now) (map view_value_at cases.now))) }
{
    for case in cases {
        let number = constants.number_at(sights, case.word, case.value);
        add_fault(faults, case.word, case_fault(class, number))?;
    }
    Ok(())
}

/// Adds the faults of the cases of a union; `found` are those by all other rules, in their order.
fn add_bad_cases(
    alloc: Global,
    faults: &mut Vec<WordFault>,
    found: &[WordFault],
    body: &BodyAt,
    sights: &Sights,
    constants: &Constants,
) -> Result<(), NoMemory>
    ensures { OnOk result (OnNumbers constants.now (λ _ known.
        Ascends found.now → faults.new.items ≡ faults.old.items
        ++ bad_cases_of (seen_by sights.now) known found.now body.now)) }
{
    let Body::Union(union) = body.body else {
        return Ok(());
    };
    let union: &UnionBody = union;
    if has_fault(found, body.at.saturating_add(2), body.behind_discriminant) {
        return Ok(());
    }
    match declaration_class(alloc, sights, constants, &union.discriminant)? {
        Some(class) => add_case_faults(faults, &class, &body.cases, sights, constants),
        None => Ok(()),
    }
}

/// The faults of cases that no discriminant has; `found` are those by all other rules, in their order.
pub fn bad_cases(
    alloc: Global,
    found: &[WordFault],
    bodies: &[BodyAt],
    sights: &Sights,
    constants: &Constants,
) -> Result<Vec<WordFault>, NoMemory>
    ensures { IfOk result (λ faults. OnNumbers constants.now (λ _ known.
        Ascends found.now → faults.items
        ≡ flat_map (bad_cases_of (seen_by sights.now) known found.now) bodies.now)) }
{
    let mut faults = Vec::new(alloc);
    for body in bodies {
        add_bad_cases(alloc, &mut faults, found, body, sights, constants)?;
    }
    Ok(faults)
}
