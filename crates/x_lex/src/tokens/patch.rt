//! What an edit does to the tokens of a text.
ghost use Rattle.std.specs.Prelude.{◌≡◌, ◌↔◌, [], IsTrue, length, slice_get};

use super::token_entry::TokenEntry;
use crate::Kind;
use std::marker::Model;
use x_text::SeqPatch;

/// Fresh tokens that take the place of some old ones, as [`crate::relex`] finds them.
#[derive(Debug, Drop)]
pub struct Patch {
    entries: SeqPatch<TokenEntry>,
}

impl Model for Patch {
    ghost use Rattle.x_lex.specs.TokenList.{TokenPatch};

    ghost Value = { TokenPatch };

    ghost view = { λ patch. patch.entries };
}

impl Patch {
    /// The patch of these entries.
    pub(crate) fn new(entries: SeqPatch<TokenEntry>) -> Patch
        ensures { result ≡ entries }
    {
        Patch { entries }
    }

    /// How many tokens end before the edit: the index at which old ones go and fresh ones come.
    pub fn at(&self) -> usize
        ensures { result ≡ self.now.at }
    {
        self.entries.at()
    }

    /// How many old tokens go.
    pub fn removed(&self) -> usize
        ensures { result ≡ self.now.removed }
    {
        self.entries.removed()
    }

    /// The place in the new text where the first fresh token starts, each of the others starting where the
    /// one before it ends.
    pub fn start(&self) -> usize
        ensures { result ≡ self.now.start }
    {
        self.entries.start()
    }

    /// How many fresh tokens there are.
    pub fn len(&self) -> usize
        ensures { result ≡ length self.now.fresh }
    {
        self.entries.len()
    }

    /// Whether there is no fresh token.
    pub fn is_empty(&self) -> bool
        ensures { IsTrue result ↔ (self.now.fresh ≡ []) }
    {
        self.entries.is_empty()
    }

    /// The kind of the fresh token at `index`, counted from the first of them, and how many bytes it has.
    pub fn get(&self, index: usize) -> Option<(Kind, usize)>
        ensures { result ≡ slice_get self.now.fresh index }
    {
        let entry = self.entries.get(index)?;
        Some(entry.kind_and_length())
    }

    /// The entries of the fresh tokens, and what they take the place of, as they are kept.
    pub(crate) fn entries(&self) -> &SeqPatch<TokenEntry>
        ensures { result.now ≡ self.now }
    {
        &self.entries
    }

    /// The entries of the fresh tokens, and what they take the place of.
    pub(crate) fn into_entries(self) -> SeqPatch<TokenEntry>
        ensures { result ≡ self }
    {
        self.entries
    }
}
