//! A text that is kept with its tokens and items, and what an edit does to these.
ghost use Rattle.std.specs.Prelude.{◌≡◌, OnOk, OnErr};
ghost use Rattle.x_text.specs.Edits.{change_of, edited_by, LiesWithin};
ghost use Rattle.x_lex.specs.Tiling.{AreTokens};
ghost use Rattle.x_lex.specs.Places.{lexemes};
ghost use Rattle.x_cutting.specs.Items.{IsCut};
ghost use Rattle.x_cutting.specs.ItemList.{counts};

use crate::case::Change;
use crate::refusal::{Refusal, expect_same};
use std::alloc::Global;
use std::fmt;
use std::marker::Model;
use x_cutting::{ItemPatch, Items, cut, recut};
use x_lex::{Patch, Tokens, lex, relex};
use x_text::{Edit, Meter, NoMemory, Source};

/// What was put into a list in the place of some of its entries.
#[derive(Clone, Copy)]
pub(crate) struct Put {
    /// The index of the first entry that is fresh.
    at: usize,
    removed: usize,
    /// The byte or the token where that entry starts.
    start: usize,
    pub(crate) fresh: usize,
    /// How many entries that stay were moved.
    moved: u64,
}

impl Put {
    /// A patch of tokens that has not moved any yet.
    fn of_tokens(patch: &Patch) -> Put {
        Put {
            at: patch.at(),
            removed: patch.removed(),
            start: patch.start(),
            fresh: patch.len(),
            moved: 0,
        }
    }

    fn of_items(patch: &ItemPatch<u8>) -> Put {
        Put {
            at: patch.at(),
            removed: patch.removed(),
            start: patch.start(),
            fresh: patch.len(),
            moved: 0,
        }
    }
}

impl fmt::Display for Put {
    fn fmt<W: fmt::Write>(&self, f: &mut fmt::Formatter<W>) -> fmt::Result {
        let (at, removed, start) = (self.at, self.removed, self.start);
        let (fresh, moved) = (self.fresh, self.moved);
        write!(
            f,
            "at {at}, removed {removed}, start {start}, fresh {fresh}, moved {moved}"
        )
    }
}

/// What an edit did to the tokens and to the items.
#[derive(Clone, Copy)]
pub(crate) struct Carried {
    /// How many tokens were lexed.
    pub(crate) lexed: u64,
    pub(crate) tokens: Put,
    pub(crate) items: Put,
}

/// Makes the tokens and items of `old` those of `new`, as who keeps them does.
fn follow(
    alloc: Global,
    items: &mut Items<u8>,
    tokens: &mut Tokens,
    old: &Source,
    edit: &Edit,
    new: &Source,
) -> Result<Carried, NoMemory>
    requires tokens { AreTokens old.now tokens.old.list }
    requires items { IsCut (lexemes old.now tokens.old.list) (counts items.old.list) }
    requires within { LiesWithin (change_of old.now edit.now) }
    requires edited { new.now ≡ edited_by (change_of old.now edit.now) }
    ensures tokens { OnOk result (AreTokens new.now tokens.new.list) }
    ensures items { OnOk result (IsCut (lexemes new.now tokens.new.list) (counts items.new.list)) }
    ensures no_tokens { OnErr result (tokens.new.list ≡ tokens.old.list) }
    ensures no_items { OnErr result (items.new.list ≡ items.old.list) }
{
    let mut meter = Meter::new();
    let patch = relex(alloc, tokens, old, edit, new, &mut meter)?;
    let fresh = recut(alloc, items, tokens, &patch, new)?;
    tokens.reserve(&patch)?;
    items.reserve(&fresh)?;
    let mut carried = Carried {
        lexed: meter.lexed(),
        tokens: Put::of_tokens(&patch),
        items: Put::of_items(&fresh),
    };
    let moved_tokens = tokens.put(patch);
    let moved_items = items.put(fresh);
    carried.tokens.moved = moved_tokens;
    carried.items.moved = moved_items;
    Ok(carried)
}

fn same_tokens(tokens: &Tokens, others: &Tokens) -> bool {
    let mut same = tokens.len() == others.len();
    for index in 0..others.len() {
        same = same && tokens.get(index) == others.get(index);
    }
    same
}

fn same_items(items: &Items<u8>, others: &Items<u8>) -> bool {
    let mut same = items.len() == others.len();
    for (item, other) in items.iter().zip(others.iter()) {
        same = same && item.tokens == other.tokens;
    }
    same
}

/// A text, its tokens and its items.
#[derive(Drop)]
pub(crate) struct Kept {
    text: Source,
    tokens: Tokens,
    items: Items<u8>,
}

impl Model for Kept {
    ghost use Rattle.std.specs.Prelude.{ℕ, List};
    ghost use Rattle.x_lex.specs.Tiling.{AreTokens};
    ghost use Rattle.x_lex.specs.Places.{lexemes};
    ghost use Rattle.x_cutting.specs.Items.{IsCut};
    ghost use Rattle.x_cutting.specs.ItemList.{counts};

    ghost Value = { List ℕ };

    ghost view = { λ kept. kept.text };

    ghost invariant = { λ kept. AreTokens kept.text kept.tokens.list
        × IsCut (lexemes kept.text kept.tokens.list) (counts kept.items.list) };
}

impl Kept {
    fn of_source(alloc: Global, text: Source) -> Result<Kept, NoMemory> {
        let tokens = lex(alloc, &text, &mut Meter::new())?;
        let items = cut(alloc, &tokens, &text)?;
        Ok(Kept {
            text,
            tokens,
            items,
        })
    }

    pub(crate) fn of(alloc: Global, text: &[u8]) -> Result<Kept, Refusal> {
        let text = Source::from_bytes(alloc, text)?;
        Ok(Kept::of_source(alloc, text)?)
    }

    pub(crate) fn items(&self) -> &Items<u8> {
        &self.items
    }

    /// [`Refusal::Differs`] where the tokens or the items are not those of the text from its start.
    fn expect_as_anew(&self, alloc: Global) -> Result<(), Refusal> {
        let anew = Kept::of(alloc, self.text.bytes())?;
        let same = same_tokens(&self.tokens, &anew.tokens);
        expect_same(same && same_items(&self.items, &anew.items))
    }

    /// Carries the edit out.
    pub(crate) fn take(&mut self, alloc: Global, edit: &Edit) -> Result<Carried, Refusal> {
        let new = self.text.edited(alloc, edit)?;
        let carried = follow(
            alloc,
            &mut self.items,
            &mut self.tokens,
            &self.text,
            edit,
            &new,
        )?;
        self.text = new;
        self.expect_as_anew(alloc)?;
        Ok(carried)
    }

    /// Carries the edit out and takes it back, by which nothing that stays is moved.
    pub(crate) fn take_forth_and_back(
        &mut self,
        alloc: Global,
        change: &Change,
    ) -> Result<(Carried, Carried), Refusal> {
        let forth = self.take(alloc, &change.edit())?;
        let back = self.take(alloc, &change.back())?;
        let stays = back.tokens.moved == 0 && back.items.moved == 0;
        expect_same(stays && self.text.bytes() == change.text())?;
        Ok((forth, back))
    }
}
