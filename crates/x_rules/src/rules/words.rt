//! What single words are.

ghost use Rattle.std.specs.Prelude.{◌≡◌, ◌++◌, List, map, OnOk};
ghost use Rattle.x_trees.specs.View.{view_value, view_declaration, view_most};
ghost use Rattle.x_rules.specs.Constants.{Known};
ghost use Rattle.x_numbers.specs.Numbers.{number_spelled, is_zero};
ghost use Rattle.x_trees.specs.Notes.{view_note, view_note_at};
ghost use Rattle.x_rules.specs.Types.{declaration_class};
ghost use Rattle.x_rules.specs.Found.{number_fault, value_fault, spelled_fault, discriminant_fault};
ghost use Rattle.x_rules.specs.Found.{note_fault};
ghost use Rattle.x_rules.specs.Found.{note_faults, past_last, past_last_faults};
ghost use Rattle.x_rules.specs.Tables.{OnNumbers, seen_by};

use super::classes::has_no_class;
use super::constants::Constants;
use super::found::add_fault;
use super::sights::Sights;
use crate::fault::{RuleCode, WordFault};
use x_numbers::{is_enum_number, is_word_number, number_value};
use x_outline::EnumeratorAt;
use x_text::NoMemory;
use x_trees::{Declaration, Note, NoteAt, Value, ValueRole};

/// Whether the number is 0.
fn is_zero(number: i128) -> bool
    ensures { result ≡ is_zero number }
{
    number == 0
}

/// The fault of a value of the role that has the number.
fn number_fault(role: ValueRole, number: i128) -> Option<RuleCode>
    ensures { result ≡ number_fault role number }
{
    match role {
        ValueRole::Enumerator => {
            if is_enum_number(number) {
                None
            } else {
                Some(RuleCode::Range)
            }
        }
        ValueRole::FixedSize => {
            if !is_word_number(number) {
                Some(RuleCode::BadSize)
            } else if is_zero(number) {
                Some(RuleCode::EmptyArray)
            } else {
                None
            }
        }
        ValueRole::GreatestSize => {
            if is_word_number(number) {
                None
            } else {
                Some(RuleCode::BadSize)
            }
        }
        _ => None,
    }
}

/// The fault of a value, by its number.
fn value_fault(role: ValueRole, value: &Value, number: Option<i128>) -> Option<RuleCode>
    ensures { result ≡ value_fault role (view_value value.now) number }
{
    match number {
        Some(number) => number_fault(role, number),
        None => match value {
            Value::Number(_) => Some(RuleCode::Range),
            Value::Named(_) => None,
        },
    }
}

/// The fault of the number of a program, a version or a procedure.
fn spelled_fault(text: &[u8]) -> Option<RuleCode>
    ensures { result ≡ spelled_fault (number_spelled text.now) }
{
    match number_value(text) {
        Some(number) => {
            if is_word_number(number) {
                None
            } else {
                Some(RuleCode::Range)
            }
        }
        None => Some(RuleCode::Range),
    }
}

/// The fault of a discriminant.
fn discriminant_fault(sights: &Sights, declaration: &Declaration) -> Option<RuleCode>
    ensures { (known : List Known)
        → result ≡ discriminant_fault
        (declaration_class (seen_by sights.now) known (view_declaration declaration.now)) }
{
    if has_no_class(sights, declaration) {
        Some(RuleCode::BadDiscriminant)
    } else {
        None
    }
}

/// The fault of a word by what it is.
fn note_fault(noted: &NoteAt, sights: &Sights, constants: &Constants) -> Option<RuleCode>
    ensures { OnNumbers constants.now (λ _ known.
        result ≡ note_fault (seen_by sights.now) known noted.now.word (view_note noted.now.note)) }
{
    match noted.note {
        Note::Value { role, value } => {
            value_fault(role, value, constants.number_at(sights, noted.word, value))
        }
        Note::Number(text) => spelled_fault(text),
        Note::Misplaced => Some(RuleCode::VoidPlace),
        Note::Discriminant(declaration) => discriminant_fault(sights, declaration),
        Note::InlineArgument => Some(RuleCode::InlineArgument),
    }
}

/// Adds the faults of words by what they are.
pub fn add_words(
    faults: &mut Vec<WordFault>,
    notes: &[NoteAt],
    sights: &Sights,
    constants: &Constants,
) -> Result<(), NoMemory>
    ensures { OnOk result (OnNumbers constants.now (λ _ known.
        faults.new.items ≡ faults.old.items
        ++ note_faults (seen_by sights.now) known (map view_note_at notes.now))) }
{
    for noted in notes {
        let code = note_fault(noted, sights, constants);
        add_fault(faults, noted.word, code)?;
    }
    Ok(())
}

/// The fault of an enumerator without a value, by its number.
fn past_last(enumerator: &EnumeratorAt, number: Option<i128>) -> Option<RuleCode>
    ensures { result ≡ past_last (view_most enumerator.now.enumerator.now.value) number }
{
    match &enumerator.enumerator.value {
        Some(_) => None,
        None => match number {
            Some(number) => {
                if is_enum_number(number) {
                    None
                } else {
                    Some(RuleCode::Range)
                }
            }
            None => None,
        },
    }
}

/// Adds the faults of enumerators without a value.
pub fn add_past_last(faults: &mut Vec<WordFault>, constants: &Constants) -> Result<(), NoMemory>
    ensures { OnOk result (OnNumbers constants.now (λ _ known.
        faults.new.items ≡ faults.old.items ++ past_last_faults known)) }
{
    let list = constants.list.items();
    for (place, enumerator) in list.iter().enumerate() {
        let code = past_last(enumerator, constants.number_in(place));
        add_fault(faults, enumerator.word, code)?;
    }
    Ok(())
}
