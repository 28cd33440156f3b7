//! The faults of a text, one after another.

ghost use Rattle.std.specs.Prelude.{◌≡◌, length};
ghost use Rattle.std.specs.Iterator.{YieldsFirst, item_count};
ghost use Rattle.x_lex.specs.Places.{lexemes};
ghost use Rattle.x_lex.specs.Tiling.{AreTokens};
ghost use Rattle.x_compile.specs.Compile.{faults_of, places_of};
ghost use Rattle.x_compile.specs.FaultWalk.{AreOrdered, ArePassed};
ghost use Rattle.x_compile.specs.KeptText.{items_of};

use crate::fault::{Fault, FaultPlace};
use crate::item_faults::ItemFaults;
use crate::item_table::ItemTable;
use crate::item_walk::ItemWalk;
use std::marker::Model;
use x_lex::Tokens;
use x_text::{Lines, Source};

/// Goes over the faults of a text and their places, by item, then by place, then by code: the result of
/// [`crate::Session::fault_places`], seen as the list of those that are left. It goes once over the items up
/// to the last fault, reads the tokens of those with faults alone, and takes no memory.
#[derive(Drop)]
pub struct FaultPlaces<'s> {
    /// How many faults are left.
    left: usize,
    /// The faults of an item.
    item: ItemFaults<'s>,
    /// The items behind it.
    items: ItemWalk<'s>,
}

impl<'s> Model for FaultPlaces<'s> {
    ghost use Rattle.std.specs.Prelude.{List, ◌≡◌, ◌++◌, length};
    ghost use Rattle.x_compile.specs.FaultWalk.{IsTelling, faults_here};
    ghost use Rattle.x_compile.specs.declared.fault.FaultPlace.{FaultPlace};

    ghost Value = { List FaultPlace };

    ghost view = { λ f. faults_here f.item ++ f.items };

    // So that faults are found on the way.
    ghost invariant = { λ f. IsTelling f.item × (f.left ≡ length (faults_here f.item ++ f.items)) };
}

impl<'s> FaultPlaces<'s> {
    /// The faults of the text of these tokens and items.
    pub fn of(source: &'s Source, tokens: &'s Tokens, items: &'s ItemTable) -> FaultPlaces<'s>
        requires tokens { AreTokens source.now tokens.now.list }
        requires passed { ArePassed (lexemes source.now tokens.now.list) items.now.entries.list }
        requires ordered { AreOrdered items.now.entries.list }
        requires count { items.now.faults ≡ length
            (faults_of source.now (items_of source.now tokens.now.list items.now.entries.list)) }
        ensures { result ≡ places_of (items_of source.now tokens.now.list items.now.entries.list) }
    {
        FaultPlaces {
            left: items.faults,
            item: ItemFaults::none(tokens.iter(source)),
            items: ItemWalk::of(source, tokens, items.iter()),
        }
    }
}

impl<'s> Iterator for FaultPlaces<'s> {
    type Item = FaultPlace;

    ghost next_gives = { YieldsFirst (λ left. left) };

    ghost remaining = { item_count (λ left. left) };

    fn next(&mut self) -> Option<FaultPlace> {
        // Behind the last fault there is nothing to go over.
        if self.left == 0 {
            return None;
        }
        if self.item.is_empty() {
            self.item = self.items.next_faulty()?;
        }
        let (place, code) = self.item.tell()?;
        self.left -= 1;
        Some(FaultPlace {
            item: self.item.number,
            token: place.token,
            start: place.start,
            code,
        })
    }
}

/// Goes over the faults of a text with their lines: the result of [`crate::Session::faults`], seen as the
/// list of those that are left. It goes once over the items and the text up to the last fault, and takes no
/// memory.
#[derive(Drop)]
pub struct Faults<'s> {
    places: FaultPlaces<'s>,
    lines: Lines<'s>,
}

impl<'s> Model for Faults<'s> {
    ghost use Rattle.std.specs.Prelude.{List, map};
    ghost use Rattle.x_compile.specs.Compile.{in_lines};
    ghost use Rattle.x_compile.specs.declared.fault.Fault.{Fault};

    ghost Value = { List Fault };

    ghost view = { λ f. map (in_lines f.lines) f.places };
}

impl<'s> Faults<'s> {
    /// The faults of the text of these tokens and items.
    pub fn of(source: &'s Source, tokens: &'s Tokens, items: &'s ItemTable) -> Faults<'s>
        requires tokens { AreTokens source.now tokens.now.list }
        requires passed { ArePassed (lexemes source.now tokens.now.list) items.now.entries.list }
        requires ordered { AreOrdered items.now.entries.list }
        requires count { items.now.faults ≡ length
            (faults_of source.now (items_of source.now tokens.now.list items.now.entries.list)) }
        ensures { result ≡ faults_of source.now (items_of source.now tokens.now.list items.now.entries.list) }
    {
        Faults {
            places: FaultPlaces::of(source, tokens, items),
            lines: Lines::of(source),
        }
    }
}

impl<'s> Iterator for Faults<'s> {
    type Item = Fault;

    ghost next_gives = { YieldsFirst (λ left. left) };

    ghost remaining = { item_count (λ left. left) };

    fn next(&mut self) -> Option<Fault> {
        let place = self.places.next()?;
        let (line, col) = self.lines.line_col(place.start);
        Some(Fault {
            item: place.item,
            token: place.token,
            line,
            col,
            code: place.code,
        })
    }
}
