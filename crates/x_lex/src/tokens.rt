//! The tokens of a text as one value.
ghost use Rattle.std.specs.Prelude.{◌≡◌, ◌+◌, ◌<◌, ◌≤◌, ◌↔◌, ℕ, [], IsTrue, IfOk, IsOk, OnOk, OnErr, length};
ghost use Rattle.std.specs.Prelude.{drop, option_map, slice_get};
ghost use Rattle.std.specs.Iterator.{YieldsFirstBy, item_count};
ghost use Rattle.x_text.specs.declared.text.source.TheConstants.{MAX_TEXT};
ghost use Rattle.x_lists.specs.Seqs.{distance};
ghost use Rattle.x_lex.specs.Tiling.{AreTokens, span, end_of};
ghost use Rattle.x_lex.specs.TokenList.{patched, LiesAmong, HasRoom, IsOfText};
ghost use Rattle.x_lex.specs.Places.{places, lexeme, lexeme_at, lexemes};
ghost use Rattle.x_lex.specs.Relex.{IsFront};

mod patch;
mod patched_token_iter;
mod token;
mod token_entry;

use crate::Kind;
pub use patch::Patch;
pub use patched_token_iter::PatchedTokenIter;
use std::alloc::Global;
use std::marker::Model;
pub use token::Token;
pub(crate) use token_entry::TokenEntry;
use x_text::{GapIter, MeasuredSeq, NoMemory, Source};

/// The tokens of a text, in order, each with its kind and length.
///
/// They have a seat, the index behind those that were put in last: what is done near it takes few steps,
/// however long the text is.
#[derive(Debug, Drop)]
pub struct Tokens {
    entries: MeasuredSeq<TokenEntry>,
}

impl Model for Tokens {
    ghost use Rattle.x_lex.specs.TokenList.{TokenList, IsOfText};

    ghost Value = { TokenList };

    ghost view = { λ tokens. tokens.entries };

    // So that each number and place fits.
    ghost invariant = { λ tokens. IsOfText tokens.entries.list };
}

impl Tokens {
    /// The tokens with these entries, which have so many bytes together.
    pub(crate) fn from_entries(
        alloc: Global,
        entries: Vec<TokenEntry>,
        total: usize,
    ) -> Result<Tokens, NoMemory>
        requires of_text { IsOfText entries.items }
        requires total { total ≡ span entries.items }
        ensures list { IfOk result (λ tokens. tokens.list ≡ entries.items) }
        ensures seat { IfOk result (λ tokens. tokens.seat ≡ length entries.items) }
        ensures no_memory { entries.items ≡ [] → IsOk result }
    {
        let entries = MeasuredSeq::of_length(alloc, entries, total)?;
        Ok(Tokens { entries })
    }

    /// How many tokens there are.
    pub fn len(&self) -> usize
        ensures count { result ≡ length self.now.list }
        ensures small { result ≤ MAX_TEXT }
        ensures seat { self.now.seat ≤ result }
    {
        self.entries.len()
    }

    /// Whether there is no token.
    pub fn is_empty(&self) -> bool
        ensures { IsTrue result ↔ (self.now.list ≡ []) }
    {
        self.entries.is_empty()
    }

    /// The kind of the token at `index`, where it starts, and the place behind its last byte.
    ///
    /// Looks at each token between it and the seat or the first one; to go over all, use [`Tokens::iter`].
    pub fn get(&self, index: usize) -> Option<(Kind, usize, usize)>
        ensures { result ≡ slice_get (places self.now.list) index }
    {
        let (kind, length) = self.kind_and_length(index)?;
        let start = self.entries.start_of(index);
        Some((kind, start, start + length))
    }

    /// The kind of the token at `index`, and how many bytes it has. Unlike [`Tokens::get`] it looks at no
    /// other token.
    pub fn kind_and_length(&self, index: usize) -> Option<(Kind, usize)>
        ensures { result ≡ slice_get self.now.list index }
    {
        let entry = self.entries.get(index)?;
        Some(entry.kind_and_length())
    }

    /// The token at `index` of the text that these are the tokens of.
    ///
    /// Looks at each token between it and the seat or the first one; to go over all, use [`Tokens::iter`].
    pub fn token<'a>(&self, index: usize, source: &'a Source) -> Option<Token<'a>>
        requires { AreTokens source.now self.now.list }
        ensures { option_map lexeme result ≡ slice_get (lexemes source.now self.now.list) index }
    {
        let place = self.get(index)?;
        Some(token_at(source.bytes(), place))
    }

    /// Goes over the tokens of the text that these are the tokens of.
    pub fn iter<'a>(&'a self, source: &'a Source) -> TokenIter<'a>
        requires { AreTokens source.now self.now.list }
        ensures tokens { result ≡ lexemes source.now self.now.list }
        ensures small { length result ≤ MAX_TEXT }
    {
        TokenIter {
            entries: self.entries.iter(),
            text: source.bytes(),
            at: 0,
        }
    }

    /// Goes over the tokens of the text that these are the tokens of, from that at `index` on.
    ///
    /// Looks first at each token between it and the seat or the first one.
    pub fn iter_from<'a>(&'a self, index: usize, source: &'a Source) -> TokenIter<'a>
        requires tokens { AreTokens source.now self.now.list }
        requires within { index ≤ length self.now.list }
        ensures tokens { result ≡ drop index (lexemes source.now self.now.list) }
        ensures small { length result ≤ MAX_TEXT }
    {
        let start = self.entries.start_of(index);
        self.iter_at(index, start, source)
    }

    /// Goes over the tokens of the text that these are the tokens of, from that at `index` on, which starts
    /// at the place `start`. Unlike [`Tokens::iter_from`] it looks at no other token.
    pub fn iter_at<'a>(&'a self, index: usize, start: usize, source: &'a Source) -> TokenIter<'a>
        requires tokens { AreTokens source.now self.now.list }
        requires within { index ≤ length self.now.list }
        requires start { start ≡ end_of self.now.list index }
        ensures tokens { result ≡ drop index (lexemes source.now self.now.list) }
        ensures small { length result ≤ MAX_TEXT }
    {
        TokenIter {
            entries: self.entries.iter_from(index),
            text: source.bytes(),
            at: start,
        }
    }

    /// Goes over the tokens that the patch will leave, which are those of the text, from that at `index` on.
    ///
    /// Looks first at no more tokens than three calls of [`Tokens::iter_from`] do, and at the fresh ones.
    pub fn iter_patched<'a>(
        &'a self,
        patch: &'a Patch,
        index: usize,
        source: &'a Source,
    ) -> PatchedTokenIter<'a>
        requires among { LiesAmong self.now.list patch.now }
        requires tokens { AreTokens source.now (patched self.now.list patch.now) }
        requires within { index ≤ length (patched self.now.list patch.now) }
        ensures tokens { result ≡ drop index (lexemes source.now (patched self.now.list patch.now)) }
        ensures small { length result ≤ MAX_TEXT }
    {
        let text = source.bytes();
        let start = self.entries.start_patched(patch.entries(), index);
        let entries = self.entries.iter_patched(patch.entries(), index);
        PatchedTokenIter::new(entries, text, start)
    }

    /// Makes room for the fresh tokens of the patch. After [`NoMemory`], too, all is as before but the room,
    /// which never shrinks.
    pub fn reserve(&mut self, patch: &Patch) -> Result<(), NoMemory>
        ensures list { self.new.list ≡ self.old.list }
        ensures seat { self.new.seat ≡ self.old.seat }
        ensures still { self.new.moved ≡ self.old.moved }
        ensures ok { OnOk result (HasRoom self.new patch.now) }
        ensures full { OnErr result (self.old.spare < length patch.now.fresh) }
        ensures room { self.old.spare ≤ self.new.spare }
    {
        self.entries.reserve(patch.len())
    }

    /// Carries the patch out in room that is there, and answers how many tokens that stay it moved.
    pub fn put(&mut self, patch: Patch) -> u64
        requires among { LiesAmong self.old.list patch }
        requires room { HasRoom self.old patch }
        requires of_text { IsOfText (patched self.old.list patch) }
        ensures list { self.new.list ≡ patched self.old.list patch }
        ensures seat { self.new.seat ≡ patch.at + length patch.fresh }
        ensures moved { result ≡ distance self.old.seat patch.at (patch.at + patch.removed) }
        ensures counted { self.new.moved ≡ self.old.moved + result }
        ensures room { self.old.spare + patch.removed ≤ self.new.spare + length patch.fresh }
    {
        self.entries.put(patch.into_entries())
    }

    /// How many of the tokens, which end at the place `end`, end before `limit`, and where the last of them
    /// ends.
    pub(crate) fn front_before(&self, end: usize, limit: usize) -> (usize, usize)
        requires { end ≡ span self.now.list }
        ensures front { IsFront self.now.list limit result.0 }
        ensures place { result.1 ≡ end_of self.now.list result.0 }
    {
        self.entries.count_before(self.entries.len(), limit, end)
    }

    /// Goes on from the boundary behind `from` tokens, which is `place`, to the first that is `target` or
    /// behind it.
    pub(crate) fn advance(&self, from: usize, place: usize, target: usize) -> (usize, usize)
        requires within { from ≤ length self.now.list }
        requires place { place ≡ end_of self.now.list from }
        ensures forward { from ≤ result.0 }
        ensures within { result.0 ≤ length self.now.list }
        ensures place { result.1 ≡ end_of self.now.list result.0 }
        ensures below { (j : ℕ) → from ≤ j → j < result.0 → end_of self.now.list j < target }
        ensures reached { result.0 < length self.now.list → target ≤ result.1 }
    {
        self.entries
            .advance(from, place, self.entries.len(), target)
    }
}

/// The token at a place of the text.
fn token_at(text: &[u8], place: (Kind, usize, usize)) -> Token<'_>
    requires order { place.1 ≤ place.2 }
    requires within { place.2 ≤ length text.now }
    ensures { lexeme result ≡ lexeme_at text.now place }
{
    let (kind, start, end) = place;
    Token {
        kind,
        start,
        end,
        text: &text[start..end],
    }
}

/// Goes over tokens in order: the result of [`Tokens::iter`], seen as the list of those that are left.
#[derive(Debug, Drop)]
pub struct TokenIter<'a> {
    entries: GapIter<'a, TokenEntry>,
    text: &'a [u8],
    at: usize,
}

impl<'a> Model for TokenIter<'a> {
    ghost use Rattle.std.specs.Prelude.{◌+◌, ◌≤◌, List, length};
    ghost use Rattle.x_lex.specs.Tiling.{span};
    ghost use Rattle.x_lex.specs.Places.{Lexeme, lexemes_from};

    ghost Value = { List Lexeme };

    ghost view = { λ walk. lexemes_from walk.text.now walk.at walk.entries };

    ghost invariant = { λ walk. walk.at + span walk.entries ≤ length walk.text.now };
}

impl<'a> TokenIter<'a> {
    /// Passes over the next tokens, or over all that are left where there are fewer. It looks at their
    /// lengths alone.
    pub fn pass(&mut self, count: usize)
        ensures { self.new ≡ drop count self.old }
    {
        self.at += self.entries.pass(count);
    }
}

impl<'a> Iterator for TokenIter<'a> {
    type Item = Token<'a>;

    ghost next_gives = { YieldsFirstBy lexeme (λ left. left) };

    ghost remaining = { item_count (λ left. left) };

    fn next(&mut self) -> Option<Token<'a>> {
        let (kind, length) = self.entries.next()?.kind_and_length();
        let start = self.at;
        let end = start + length;
        self.at = end;
        Some(Token {
            kind,
            start,
            end,
            text: &self.text[start..end],
        })
    }
}
