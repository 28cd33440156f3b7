//! The items of a text, of which those with faults are found.

ghost use Rattle.std.specs.Prelude.{◌≡◌, ◌≢◌, ◌≤◌, ◌+◌, ◌++◌, [], MatchOption, length};
ghost use Rattle.x_text.specs.declared.text.source.TheConstants.{MAX_TEXT};
ghost use Rattle.x_lex.specs.Places.{lexemes};
ghost use Rattle.x_lex.specs.Tiling.{AreTokens};
ghost use Rattle.x_compile.specs.FaultWalk.{AreOrdered, ArePassed, IsTelling, faults_behind, faults_here};

use crate::content::Content;
use crate::item_faults::ItemFaults;
use std::marker::Model;
use x_item::ItemEntry;
use x_lex::Tokens;
use x_text::{GapIter, Source};

/// The items of a text that are left, seen as their faults. Those without a fault are passed over by the
/// numbers of their tokens and of their bytes.
#[derive(Drop)]
pub struct ItemWalk<'s> {
    source: &'s Source,
    tokens: &'s Tokens,
    entries: GapIter<'s, ItemEntry<Content>>,
    /// The number of the first of them.
    number: u32,
    /// The index of its first token.
    token: usize,
    /// Where that token starts.
    start: usize,
}

impl<'s> Model for ItemWalk<'s> {
    ghost use Rattle.std.specs.Prelude.{◌≤◌, ◌+◌, List, length};
    ghost use Rattle.x_text.specs.declared.text.source.TheConstants.{MAX_TEXT};
    ghost use Rattle.x_lex.specs.Tiling.{AreTokens};
    ghost use Rattle.x_compile.specs.FaultWalk.{AreOrdered, StandAt, faults_behind};
    ghost use Rattle.x_compile.specs.declared.fault.FaultPlace.{FaultPlace};

    ghost Value = { List FaultPlace };

    ghost view = { λ w. faults_behind w.source.now w.tokens.now.list w.token w.number w.entries };

    // So that each item is found at its tokens, and each number fits.
    ghost invariant = { λ w. AreTokens w.source.now w.tokens.now.list
        × StandAt w.source.now w.tokens.now.list w.token w.start w.entries
        × AreOrdered w.entries × (w.number + length w.entries ≤ MAX_TEXT + 1) };
}

impl<'s> ItemWalk<'s> {
    /// All items of the text that has these tokens.
    pub fn of(
        source: &'s Source,
        tokens: &'s Tokens,
        entries: GapIter<'s, ItemEntry<Content>>,
    ) -> ItemWalk<'s>
        requires tokens { AreTokens source.now tokens.now.list }
        requires passed { ArePassed (lexemes source.now tokens.now.list) entries }
        requires ordered { AreOrdered entries }
        requires small { length entries ≤ MAX_TEXT + 1 }
        ensures { result ≡ faults_behind source.now tokens.now.list 0 0 entries.entry }
    {
        ItemWalk {
            source,
            tokens,
            entries,
            number: 0,
            token: 0,
            start: 0,
        }
    }

    /// The faults of the next item that has any. This goes on behind that item.
    pub fn next_faulty(&mut self) -> Option<ItemFaults<'s>>
        ensures { MatchOption result (self.old ≡ []) (λ item. IsTelling item
            × (faults_here item ≢ []) × (self.old ≡ faults_here item ++ self.new)) }
    {
        // A read of the count shows that indices are small, and one of the text that places are.
        let _count = self.tokens.len();
        let _text = self.source.bytes();
        'items: loop {
            let entry = self.entries.next()?;
            let (number, token, start) = (self.number, self.token, self.start);
            self.start += entry.bytes as usize;
            self.token += entry.tokens as usize;
            self.number += 1;
            if entry.kept.is_faulty() {
                let walk = self.tokens.iter_at(token, start, self.source);
                return Some(ItemFaults::of(number, entry, walk));
            }
        }
    }
}
