//! What may stand only once in a body, a program or a version.

ghost use Rattle.std.specs.Prelude.{◌≡◌, ◌≤◌, ◌++◌, length, map, IfOk, OnOk};
ghost use Rattle.std.specs.List.{flat_map};
ghost use Rattle.std.specs.Ordering.{int_eq};
ghost use Rattle.std.specs.Str.{bytes_eq};
ghost use Rattle.x_rules.specs.FirstPlaces.{first_from, is_behind};
ghost use Rattle.x_rules.specs.Found.{repeat_code, repeated_names, repeated_members};
ghost use Rattle.x_rules.specs.Found.{numbered, spelled_numbers, repeated_code, repeated_numbers};
ghost use Rattle.x_outline.specs.Parts.{view_name_at, view_number_at, view_members};

use super::first_places::{FirstPlaces, Keyed};
use super::found::add_fault;
use crate::fault::{RuleCode, WordFault};
use std::alloc::Global;
use x_hash::HashKey;
use x_numbers::number_value;
use x_outline::{BodyAt, Members, NameAt, NumberAt};
use x_text::NoMemory;

/// A number at a word.
#[derive(Clone, Copy, Debug)]
pub struct Numbered {
    pub number: i128,
    pub word: usize,
}

impl Keyed<i128> for Numbered {
    ghost has_key = { λ numbered number. int_eq number numbered.number };

    fn key(&self) -> i128 {
        self.number
    }
}

impl<'d> Keyed<&'d [u8]> for NameAt<'d> {
    ghost has_key = { λ named name. bytes_eq name.now named.name.now };

    fn key(&self) -> &'d [u8] {
        self.name
    }
}

/// Adds the number at a word, if there is one.
pub fn add_number(
    list: &mut Vec<Numbered>,
    word: usize,
    number: Option<i128>,
) -> Result<(), NoMemory>
    ensures { OnOk result (list.new.items ≡ list.old.items ++ numbered word number) }
{
    match number {
        Some(number) => {
            list.push(Numbered { number, word })?;
            Ok(())
        }
        None => Ok(()),
    }
}

/// The fault of a number, by whether it is new.
fn number_fault(code: RuleCode, is_new: bool) -> Option<RuleCode>
    ensures { result ≡ repeated_code code is_new }
{
    if is_new { None } else { Some(code) }
}

/// Whether the number in this place stands before it too.
fn has_earlier(numbers: &FirstPlaces<Numbered, i128>, here: &Numbered, place: usize) -> bool
    requires { place ≤ length numbers.now }
    ensures { result ≡ is_behind (first_from (λ n. int_eq here.now.number n.number) 0 numbers.now) place }
{
    numbers.has_before(place, here.number)
}

/// Adds the fault at each number that has an earlier word too.
pub fn add_repeated_numbers(
    alloc: Global,
    hash_key: HashKey,
    faults: &mut Vec<WordFault>,
    numbers: &[Numbered],
    code: RuleCode,
) -> Result<(), NoMemory>
    ensures { OnOk result (faults.new.items ≡ faults.old.items ++ repeated_numbers code numbers.now) }
{
    let places = FirstPlaces::of(alloc, hash_key, numbers)?;
    for (place, here) in numbers.iter().enumerate() {
        let is_new = !has_earlier(&places, here, place);
        add_fault(faults, here.word, number_fault(code, is_new))?;
    }
    Ok(())
}

/// The fault of a name, by whether it has an earlier place too.
fn name_fault(is_repeated: bool) -> Option<RuleCode>
    ensures { result ≡ repeat_code is_repeated }
{
    if is_repeated {
        Some(RuleCode::RepeatedField)
    } else {
        None
    }
}

/// Adds the fault at each name of a group that has an earlier word too.
fn add_repeated_names(
    alloc: Global,
    hash_key: HashKey,
    faults: &mut Vec<WordFault>,
    names: &[NameAt],
) -> Result<(), NoMemory>
    ensures { OnOk result (faults.new.items ≡ faults.old.items
        ++ repeated_names (map view_name_at names.now)) }
{
    let places = FirstPlaces::of(alloc, hash_key, names)?;
    for (place, name) in names.iter().enumerate() {
        let code = name_fault(places.has_before(place, name.name));
        add_fault(faults, name.word, code)?;
    }
    Ok(())
}

/// The numbers that constants may have.
fn numbers_of(alloc: Global, numbers: &[NumberAt]) -> Result<Vec<Numbered>, NoMemory>
    ensures { IfOk result (λ list. list.items ≡ spelled_numbers (map view_number_at numbers.now)) }
{
    let mut list = Vec::new(alloc);
    for spelled in numbers {
        add_number(&mut list, spelled.word, number_value(spelled.text))?;
    }
    Ok(list)
}

/// Adds the faults of names of fields that stand twice.
pub fn add_repeated_fields(
    alloc: Global,
    hash_key: HashKey,
    faults: &mut Vec<WordFault>,
    bodies: &[BodyAt],
) -> Result<(), NoMemory>
    ensures { OnOk result (faults.new.items ≡ faults.old.items
        ++ flat_map (λ b. repeated_names (map view_name_at b.fields.items)) bodies.now) }
{
    for body in bodies {
        add_repeated_names(alloc, hash_key, faults, &body.fields)?;
    }
    Ok(())
}

/// Adds the faults of the versions of a program, or of the procedures of a version.
fn add_repeats_of(
    alloc: Global,
    hash_key: HashKey,
    faults: &mut Vec<WordFault>,
    group: &Members,
) -> Result<(), NoMemory>
    ensures { OnOk result (faults.new.items ≡ faults.old.items
        ++ repeated_members (view_members group.now)) }
{
    add_repeated_names(alloc, hash_key, faults, &group.names)?;
    let numbers = numbers_of(alloc, &group.numbers)?;
    add_repeated_numbers(alloc, hash_key, faults, &numbers, RuleCode::RepeatedNumber)
}

/// Adds the faults of names and numbers of versions and procedures that stand twice.
pub fn add_repeated_members(
    alloc: Global,
    hash_key: HashKey,
    faults: &mut Vec<WordFault>,
    members: &[Members],
) -> Result<(), NoMemory>
    ensures { OnOk result (faults.new.items ≡ faults.old.items
        ++ flat_map (λ m. repeated_members (view_members m)) members.now) }
{
    for group in members {
        add_repeats_of(alloc, hash_key, faults, group)?;
    }
    Ok(())
}
