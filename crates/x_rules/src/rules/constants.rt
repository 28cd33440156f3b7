//! The numbers of values and of enumerators.

ghost use Rattle.std.specs.Prelude.{◌≡◌, ◌<◌, ◌+◌, ◌^◌, ◌++◌, nat_lt, [], List, length, map, Some, true};
ghost use Rattle.std.specs.Prelude.{false};
ghost use Rattle.std.specs.Prelude.{OnOk, IfOk};
ghost use Rattle.std.specs.Prelude.{slice_get, option_and_then};
ghost use Rattle.x_trees.specs.Spell.{spell_other_enumerators};
ghost use Rattle.x_trees.specs.View.{view_value, view_enumerator};
ghost use Rattle.x_outline.specs.Bodies as bodies;
ghost use Rattle.x_outline.specs.Bodies.{enumerators_from, enumerators_of, enumerators_in};
ghost use Rattle.x_outline.specs.BodyWalks.{view_body_at, IsFilled, AreFilled};
ghost use Rattle.x_rules.specs.Constants.{Known, knowns, limit_of, is_declared_before, number_named};
ghost use Rattle.x_rules.specs.RustViews.{view_view};
ghost use Rattle.std.specs.Option.{option_map_or};
ghost use Rattle.std.specs.Str.{bytes_eq};
ghost use Rattle.x_rules.specs.Constants.{number_before, number_by, number_seen, enumerator_number};
ghost use Rattle.x_numbers.specs.Numbers.{next_number};
ghost use Rattle.x_outline.specs.Parts.{view_enumerator_at};
ghost use Rattle.x_rules.specs.Tables.{HasNumbers, OnNumbers, seen_by};

use super::first_places::{FirstPlaces, Keyed};
use super::packed_numbers::PackedNumbers;
use super::sights::Sights;
use crate::views::{Meaning, View};
use std::alloc::Global;
use x_numbers::{next_number, number_value};
use x_outline::{BodyAt, EnumeratorAt, words_of_enumerator};
use x_text::NoMemory;
use x_trees::{Body, Enumerator, NameKind, Value};

/// The word before which names stand that a value at the word may use: two words in front of it stands its
/// own name, where it is the value of an enumerator.
pub fn limit_of(word: usize) -> usize
    ensures { result ≡ limit_of word }
{
    word.saturating_sub(2)
}

/// Adds the enumerators of an enum whose first name stands at the word.
fn add_names<'d>(
    list: &mut Vec<EnumeratorAt<'d>>,
    at: usize,
    enumerators: &'d [Enumerator],
) -> Result<(), NoMemory>
    ensures { OnOk result
        (at + length (spell_other_enumerators (map view_enumerator enumerators.now)) < 2 ^ 64
        → map view_enumerator_at list.new.items ≡ map view_enumerator_at list.old.items
        ++ enumerators_from true at (map view_enumerator enumerators.now)) }
{
    let mut word = at;
    let mut is_first = true;
    for enumerator in enumerators {
        list.push(EnumeratorAt {
            word,
            enumerator,
            is_first,
        })?;
        is_first = false;
        word = word
            .saturating_add(words_of_enumerator(enumerator))
            .saturating_add(1);
    }
    Ok(())
}

/// Adds the enumerators of a body.
fn add_enumerators<'d>(list: &mut Vec<EnumeratorAt<'d>>, body: &BodyAt<'d>) -> Result<(), NoMemory>
    ensures { OnOk result (IsFilled body.now → map view_enumerator_at list.new.items
        ≡ map view_enumerator_at list.old.items ++ enumerators_of (view_body_at body.now)) }
{
    match body.body {
        Body::Enum(enumerators) => add_names(list, body.at.saturating_add(1), enumerators),
        Body::Struct(_) => Ok(()),
        Body::Union(_) => Ok(()),
    }
}

/// The enumerators of all bodies, in the order of their words.
pub fn enumerators<'d>(
    alloc: Global,
    bodies: &[BodyAt<'d>],
) -> Result<Vec<EnumeratorAt<'d>>, NoMemory>
    ensures { IfOk result (λ list. AreFilled bodies.now
        → map view_enumerator_at list.items ≡ enumerators_in (map view_body_at bodies.now)) }
{
    let mut list = Vec::new(alloc);
    for body in bodies {
        add_enumerators(&mut list, body)?;
    }
    Ok(list)
}

impl<'d> Keyed<&'d [u8]> for EnumeratorAt<'d> {
    ghost has_key = { λ e name. bytes_eq name.now e.enumerator.now.name.items };

    fn key(&self) -> &'d [u8] {
        self.enumerator.name.as_slice()
    }
}

/// The enumerators of a definition, with the numbers of the first so many.
#[derive(Drop)]
pub struct Constants<'v> {
    pub list: FirstPlaces<'v, EnumeratorAt<'v>, &'v [u8]>,
    pub numbers: PackedNumbers,
}

/// The number of a name used as a value, whose own number is given.
fn number_seen(view: View, own: Option<i128>) -> Option<i128>
    ensures { result ≡ number_seen (view_view view.entry) own }
{
    match view {
        View::Earlier { kind, meaning, .. } => match kind {
            NameKind::Constant => match meaning {
                Meaning::Constant(number) => Some(number),
                _ => None,
            },
            _ => None,
        },
        View::Own { kind, .. } => match kind {
            NameKind::Constant => own,
            _ => None,
        },
        _ => None,
    }
}

impl<'v> Constants<'v> {
    /// The enumerators with their numbers.
    pub fn of(
        alloc: Global,
        list: &'v [EnumeratorAt<'v>],
        sights: &Sights,
    ) -> Result<Constants<'v>, NoMemory>
        ensures { IfOk result (λ constants. let all = map view_enumerator_at list.now in
            HasNumbers constants all (knowns (seen_by sights.now) all)) }
    {
        let mut constants = Constants {
            list: FirstPlaces::of(alloc, sights.hash_key, list)?,
            numbers: PackedNumbers::new(alloc),
        };
        constants.number(sights)?;
        Ok(constants)
    }

    /// Finds the numbers of all enumerators.
    fn number(&mut self, sights: &Sights) -> Result<(), NoMemory>
        ensures { OnOk result ((all : List bodies.EnumeratorAt) → HasNumbers self.old all []
            → HasNumbers self.new all (knowns (seen_by sights.now) all)) }
    {
        let count = self.list.items().len();
        let mut before = None;
        for place in 0..count {
            before = self.number_given(sights, before, place);
            self.numbers.push(before)?;
        }
        Ok(())
    }

    /// The number of the enumerator in a place, behind those that have theirs.
    fn number_given(&self, sights: &Sights, before: Option<i128>, place: usize) -> Option<i128>
        ensures { (all : List bodies.EnumeratorAt) (known : List Known) (e : bodies.EnumeratorAt)
            → HasNumbers self.now all known → slice_get all place ≡ Some e
            → result ≡ enumerator_number (seen_by sights.now) known before e }
    {
        match self.list.items().get(place) {
            Some(enumerator) => self.enumerator_number(sights, before, enumerator),
            None => None,
        }
    }

    /// The number of an enumerator behind those that have theirs.
    fn enumerator_number(
        &self,
        sights: &Sights,
        before: Option<i128>,
        enumerator: &EnumeratorAt,
    ) -> Option<i128>
        ensures { OnNumbers self.now (λ _ known.
            result ≡ enumerator_number (seen_by sights.now) known before
            (view_enumerator_at enumerator.now)) }
    {
        match &enumerator.enumerator.value {
            Some(value) => self.number_by(sights, enumerator.word, value),
            None => {
                if enumerator.is_first {
                    Some(0)
                } else {
                    next_number(before)
                }
            }
        }
    }

    /// Whether the enumerator in the place stands before the word.
    fn is_before(&self, place: usize, limit: usize) -> bool
        ensures { OnNumbers self.now (λ all _.
            result ≡ option_map_or (λ e. nat_lt e.word limit) (slice_get all place) false) }
    {
        match self.list.items().get(place) {
            Some(enumerator) => enumerator.word < limit,
            None => false,
        }
    }

    /// Whether the first enumerator of the name stands before the word.
    pub fn is_declared_before(&self, limit: usize, name: &[u8]) -> bool
        ensures { OnNumbers self.now (λ all _. result ≡ is_declared_before all limit name.now) }
    {
        match self.list.get(name) {
            Some(place) => self.is_before(place, limit),
            None => false,
        }
    }

    /// The number in a place.
    pub fn number_in(&self, place: usize) -> Option<i128>
        ensures { result ≡ option_and_then (λ n. n) (slice_get self.now.numbers place) }
    {
        self.numbers.get(place)
    }

    /// The number of the first enumerator of the name, if it stands before the word.
    fn own_number(&self, limit: usize, name: &[u8]) -> Option<i128>
        ensures { OnNumbers self.now (λ _ known. result ≡ number_before known limit name.now) }
    {
        match self.list.get(name) {
            Some(place) => {
                if self.is_before(place, limit) {
                    self.number_in(place)
                } else {
                    None
                }
            }
            None => None,
        }
    }

    /// The number of a value that may use the enumerators whose names stand before the word.
    fn number_by(&self, sights: &Sights, limit: usize, value: &Value) -> Option<i128>
        ensures { OnNumbers self.now (λ _ known.
            result ≡ number_by (seen_by sights.now) known limit (view_value value.now)) }
    {
        match value {
            Value::Number(text) => number_value(text),
            Value::Named(name) => match sights.see(name) {
                View::Own { kind, lifted } => number_seen(
                    View::Own { kind, lifted },
                    self.own_number(limit, name),
                ),
                view => number_seen(view, None),
            },
        }
    }

    /// The number of the value at the word, if it has one.
    pub fn number_at(&self, sights: &Sights, word: usize, value: &Value) -> Option<i128>
        ensures { OnNumbers self.now (λ _ known.
            result ≡ number_by (seen_by sights.now) known (limit_of word) (view_value value.now)) }
    {
        self.number_by(sights, limit_of(word), value)
    }

    /// The number of the first enumerator of the name.
    pub fn number_named(&self, name: &[u8]) -> Option<i128>
        ensures { OnNumbers self.now (λ _ known. result ≡ number_named known name.now) }
    {
        match self.list.get(name) {
            Some(place) => self.number_in(place),
            None => None,
        }
    }
}
