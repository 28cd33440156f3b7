//! The tokens that a patch will leave, before it is put in place.
ghost use Rattle.std.specs.Prelude.{◌≡◌, ◌+◌, ◌≤◌, length};
ghost use Rattle.std.specs.Iterator.{YieldsFirstBy, item_count};
ghost use Rattle.x_lex.specs.Places.{lexeme, lexemes_from};
ghost use Rattle.x_lex.specs.Tiling.{span};

use super::token_entry::TokenEntry;
use crate::Token;
use std::marker::Model;
use x_text::PatchedIter;

/// Goes over the tokens that a patch will leave: the result of [`crate::Tokens::iter_patched`], seen as the
/// list of those that are left.
#[derive(Debug, Drop)]
pub struct PatchedTokenIter<'a> {
    entries: PatchedIter<'a, TokenEntry>,
    text: &'a [u8],
    at: usize,
}

impl<'a> Model for PatchedTokenIter<'a> {
    ghost use Rattle.std.specs.Prelude.{◌+◌, ◌≤◌, List, length};
    ghost use Rattle.x_lex.specs.Tiling.{span};
    ghost use Rattle.x_lex.specs.Places.{Lexeme, lexemes_from};

    ghost Value = { List Lexeme };

    ghost view = { λ walk. lexemes_from walk.text.now walk.at walk.entries };

    ghost invariant = { λ walk. walk.at + span walk.entries ≤ length walk.text.now };
}

impl<'a> PatchedTokenIter<'a> {
    /// Goes over these entries, the first of which starts at the place `at` of the text.
    pub(crate) fn new(
        entries: PatchedIter<'a, TokenEntry>,
        text: &'a [u8],
        at: usize,
    ) -> PatchedTokenIter<'a>
        requires { at + span entries ≤ length text.now }
        ensures { result ≡ lexemes_from text.now at entries.entry }
    {
        PatchedTokenIter { entries, text, at }
    }
}

impl<'a> Iterator for PatchedTokenIter<'a> {
    type Item = Token<'a>;

    ghost next_gives = { YieldsFirstBy lexeme (λ left. left) };

    ghost remaining = { item_count (λ left. left) };

    fn next(&mut self) -> Option<Token<'a>> {
        let (kind, length) = self.entries.next()?.kind_and_length();
        let start = self.at;
        let end = start + length;
        self.at = end;
        Some(Token {
            kind,
            start,
            end,
            text: &self.text[start..end],
        })
    }
}
