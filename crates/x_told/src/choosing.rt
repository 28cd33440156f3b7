//! Which of the faults that are told an editor is shown.

ghost use Rattle.std.specs.List.{filter};
ghost use Rattle.std.specs.Prelude.{◌≡◌, ◌+◌, IfOk, IsTrue, List, length};
ghost use Rattle.x_compile.specs.Compile.{Item, places_of};
ghost use Rattle.x_session.specs.Session.{Compiles};
ghost use Rattle.x_told.specs.Choosing.{AreChosen, chosen, is_consequence, is_error, left_out, with_first};
ghost use Rattle.x_told.specs.Telling.{told_of};

use crate::telling::{is_of_faulty, told_faults};
use std::alloc::Global;
use x_directives::LaterBranches;
use x_explain::{FoundFault, found_at};
use x_session::{FaultPlace, Session};
use x_text::NoMemory;

/// The faults of a text that are shown, and how many more there are.
#[derive(Debug, Drop)]
pub struct ChosenFaults {
    /// Those that are shown, in the order of the text, and from where to where their tokens stand.
    pub list: Vec<FoundFault>,
    /// How many more are told.
    pub left: usize,
}

/// The faults that are shown of a session's text, if `most` are at most: errors before what follows from
/// them.
///
/// They are chosen before their tokens are looked at, so one that is not shown costs next to nothing.
///
/// # Errors
///
/// [`NoMemory`] where a list could not grow.
pub fn chosen_faults(
    alloc: Global,
    most: usize,
    blanks: bool,
    shown: &[u8],
    session: &Session,
) -> Result<ChosenFaults, NoMemory>
    ensures { IfOk result (λ found. Compiles session.now.known session.now.text (λ items.
        AreChosen most session.now.text (told_of blanks shown.now items) found.list.items found.left)) }
{
    let told = told_first(alloc, most, blanks, shown, session)?;
    let left = told.count.saturating_sub(most);
    let places = chosen(alloc, most, told.places)?;
    let list = found_at(alloc, session.bytes(), &places)?;
    Ok(ChosenFaults { list, left })
}

/// The faults of a text that are told.
#[derive(Drop)]
struct ToldFaults {
    /// Those among which all are that are shown.
    places: Vec<FaultPlace>,
    /// How many there are.
    count: usize,
}

/// The faults that are told, up to the last that is shown where all of the text are.
fn told_first(
    alloc: Global,
    most: usize,
    blanks: bool,
    shown: &[u8],
    session: &Session,
) -> Result<ToldFaults, NoMemory>
    ensures { IfOk result (λ told. Compiles session.now.known session.now.text (λ items.
        (chosen most told.places.items ≡ chosen most (told_of blanks shown.now items))
        × (told.count ≡ length (told_of blanks shown.now items)))) }
{
    if are_all_told(alloc, blanks, shown)? {
        return Ok(ToldFaults {
            places: first_places(alloc, most, session)?,
            count: session.fault_count(),
        });
    }
    let places = told_faults(alloc, blanks, shown, session)?;
    let count = places.len();
    Ok(ToldFaults { places, count })
}

/// Whether all faults of a text are told, whatever they are.
fn are_all_told(alloc: Global, blanks: bool, shown: &[u8]) -> Result<bool, NoMemory>
    ensures { IfOk result (λ all. IsTrue all → (items : List Item)
        → told_of blanks shown.now items ≡ places_of items) }
{
    if !blanks {
        return Ok(true);
    }
    let branches = LaterBranches::of(alloc, shown)?;
    Ok(branches.is_empty())
}

/// The places of a text's faults, up to where so many of them are errors.
fn first_places(alloc: Global, most: usize, session: &Session) -> Result<Vec<FaultPlace>, NoMemory>
    ensures { IfOk result (λ places. Compiles session.now.known session.now.text (λ items.
        chosen most places.items ≡ chosen most (places_of items))) }
{
    let mut places = Vec::new(alloc);
    let mut room = most;
    for place in session.fault_places() {
        places.push(place)?;
        if !is_of_faulty(place.code) {
            room = room.saturating_sub(1);
        }
        if room == 0 {
            return Ok(places);
        }
    }
    Ok(places)
}

/// Those of the faults that are shown, if `most` are at most.
fn chosen(alloc: Global, most: usize, told: Vec<FaultPlace>) -> Result<Vec<FaultPlace>, NoMemory>
    ensures chosen { IfOk result (λ list. list.items ≡ chosen most told.items) }
    ensures counted { IfOk result (λ list.
        length list.items + left_out most told.items ≡ length told.items) }
{
    if told.len() <= most {
        return Ok(told);
    }
    let room = most.saturating_sub(error_count(&told));
    first_of(alloc, most, room, &told)
}

/// How many of the faults follow from no other.
fn error_count(told: &[FaultPlace]) -> usize
    ensures { result ≡ length (filter is_error told.now) }
{
    let mut count = 0;
    for fault in told {
        if !is_of_faulty(fault.code) {
            count += 1;
        }
    }
    count
}

/// The first so many errors of the faults, and the first so many consequences, in their order.
fn first_of(
    alloc: Global,
    errors: usize,
    consequences: usize,
    told: &[FaultPlace],
) -> Result<Vec<FaultPlace>, NoMemory>
    ensures { IfOk result (λ list. list.items
        ≡ with_first consequences is_consequence (with_first errors is_error told.now)) }
{
    let mut list = Vec::new(alloc);
    let mut error_room = errors;
    let mut room = consequences;
    for fault in told {
        if is_of_faulty(fault.code) {
            if room > 0 {
                room -= 1;
                list.push(*fault)?;
            }
        } else if error_room > 0 {
            error_room -= 1;
            list.push(*fault)?;
        }
    }
    Ok(list)
}
