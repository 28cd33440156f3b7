//! The faults of an item, one after another.

ghost use Rattle.std.specs.Prelude.{◌≡◌, [], ◌∷◌, ◌≤◌, MatchOption, IsTrue, ◌↔◌, length};
ghost use Rattle.x_rules.specs.Rules.{Ascends};
ghost use Rattle.x_text.specs.declared.text.source.TheConstants.{MAX_TEXT};
ghost use Rattle.x_compile.specs.Compile.{item_places, rule_faults};
ghost use Rattle.x_compile.specs.FaultWalk.{IsTelling, faults_here, places_left};
ghost use Rattle.x_compile.specs.KeptView.{IsMarked, found_result, item_with, kept_found};

use crate::content::{Content, Verdict};
use crate::fault::FaultCode;
use crate::reader::{Reader, WordPlace};
use x_item::ItemEntry;
use x_lex::TokenIter;

/// The faults of an item that are left.
#[derive(Drop)]
pub struct ItemFaults<'s> {
    /// The number of the item.
    pub number: u32,
    pub reader: Reader<'s>,
    pub told: Verdict<'s>,
}

impl<'s> ItemFaults<'s> {
    /// The faults of no item.
    pub fn none(walk: TokenIter<'s>) -> ItemFaults<'s>
        requires { length walk ≤ MAX_TEXT }
        ensures none { places_left result.reader result.told ≡ [] }
        ensures telling { IsTelling result }
    {
        ItemFaults {
            number: 0,
            reader: Reader::of(walk, 0),
            told: Verdict::Rules(&[]),
        }
    }

    /// The faults of the item that has this number, and the first tokens of a walk.
    pub fn of(number: u32, entry: &'s ItemEntry<Content>, walk: TokenIter<'s>) -> ItemFaults<'s>
        requires small { length walk ≤ MAX_TEXT }
        requires ascends { Ascends (rule_faults (found_result (kept_found entry.now.kept))) }
        requires marked { IsMarked entry.now.kept }
        ensures faults { faults_here result ≡ item_places number (item_with walk.entry entry.now) }
        ensures telling { IsTelling result }
    {
        ItemFaults {
            number,
            reader: Reader::of(walk, entry.tokens as usize),
            told: entry.kept.told(),
        }
    }

    /// Whether no fault is left.
    pub fn is_empty(&self) -> bool
        ensures { IsTrue result ↔ (places_left self.now.reader self.now.told ≡ []) }
    {
        match self.told {
            Verdict::Syntax { .. } | Verdict::Rule(_) => false,
            Verdict::Rules(faults) => faults.is_empty(),
        }
    }

    /// The next fault: its place, and what is wrong.
    pub fn tell(&mut self) -> Option<(WordPlace, FaultCode)>
        requires { IsTelling self.old }
        ensures told { MatchOption result (places_left self.old.reader self.old.told ≡ [])
            (λ found. places_left self.old.reader self.old.told
            ≡ found ∷ places_left self.new.reader self.new.told) }
        ensures number { self.new.number ≡ self.old.number }
        ensures telling { IsTelling self.new }
    {
        match self.told {
            Verdict::Syntax { token, code } => {
                self.told = Verdict::Rules(&[]);
                let start = self.reader.start_of(token as usize);
                Some((WordPlace { token, start }, FaultCode::Syntax(code)))
            }
            Verdict::Rule(fault) => {
                self.told = Verdict::Rules(&[]);
                Some((self.reader.seek(fault.word), FaultCode::Rule(fault.code)))
            }
            Verdict::Rules(faults) => {
                let (fault, others) = faults.split_first()?;
                self.told = Verdict::Rules(others);
                Some((self.reader.seek(fault.word), FaultCode::Rule(fault.code)))
            }
        }
    }
}
