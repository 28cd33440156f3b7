//! Reading the tokens of an item, word by word.

ghost use Rattle.std.specs.Prelude.{◌≡◌, ◌+◌, ◌<◌, ◌≤◌, ℕ, [], false, length, take, IsTrue};
ghost use Rattle.x_text.specs.declared.text.source.TheConstants.{MAX_TEXT};
ghost use Rattle.x_compile.specs.Compile.{start_of};
ghost use Rattle.x_compile.specs.ItemReading.{place_read, unread};

use std::marker::Model;
use x_item::is_significant;
use x_lex::TokenIter;

/// A token of an item, counted from 0, and where it starts.
#[derive(Clone, Copy)]
pub struct WordPlace {
    pub token: u32,
    pub start: usize,
}

/// Reads the tokens of an item.
#[derive(Drop)]
pub struct Reader<'s> {
    /// The tokens that are not read yet, of the item and of all behind it.
    walk: TokenIter<'s>,
    /// How many of them are of the item.
    left: usize,
    /// How many of its tokens are read.
    read: usize,
    /// How many words are among those.
    words: usize,
    /// The last of these words.
    last: WordPlace,
}

impl<'s> Model for Reader<'s> {
    ghost use Rattle.std.specs.Prelude.{◌+◌, ◌≤◌, length};
    ghost use Rattle.x_text.specs.declared.text.source.TheConstants.{MAX_TEXT};
    ghost use Rattle.x_compile.specs.ItemReading.{ItemReading};

    ghost Value = { ItemReading };

    ghost view = { λ r. record {
      walk = r.walk;
      left = r.left;
      read = r.read;
      words = r.words;
      last = r.last;
    } };

    // So that each number fits.
    ghost invariant = { λ r. (r.read + length r.walk ≤ MAX_TEXT) × (r.words ≤ r.read) };
}

impl<'s> Reader<'s> {
    /// A reader of the item that has the first so many tokens of a walk.
    pub fn of(walk: TokenIter<'s>, count: usize) -> Reader<'s>
        requires { length walk ≤ MAX_TEXT }
        ensures unread { unread result ≡ take count walk.entry }
        ensures read { result.read ≡ 0 }
        ensures words { result.words ≡ 0 }
    {
        Reader {
            walk,
            left: count,
            read: 0,
            words: 0,
            last: WordPlace { token: 0, start: 0 },
        }
    }

    /// Where a token of the item starts, counted from the first one that is not read; 0 where there is none.
    /// It is the last that is asked of the item.
    pub fn start_of(&mut self, token: usize) -> usize
        ensures { result ≡ start_of (unread self.old) token }
    {
        if self.left <= token {
            return 0;
        }
        self.walk.pass(token);
        self.left -= token;
        let Some(token) = self.walk.next() else {
            return 0;
        };
        self.left -= 1;
        token.start
    }

    /// Reads the next token of the item, if there is one.
    fn step(&mut self) -> bool
        ensures more { IsTrue result → self.new.left < self.old.left }
        ensures none { result ≡ false → (unread self.old ≡ []) × (self.new ≡ self.old) }
        ensures same { (word : ℕ) → self.old.words ≤ word
            → place_read self.new word ≡ place_read self.old word }
        ensures words { self.new.words ≤ self.old.words + 1 }
    {
        if self.left == 0 {
            return false;
        }
        let Some(token) = self.walk.next() else {
            return false;
        };
        if is_significant(token.kind) {
            self.last = WordPlace {
                token: self.read as u32,
                start: token.start,
            };
            self.words += 1;
        }
        self.read += 1;
        self.left -= 1;
        true
    }

    /// The place of a word that is the last one that was read, or is not read yet.
    pub fn seek(&mut self, word: usize) -> WordPlace
        requires { self.old.words ≤ word + 1 }
        ensures place { result ≡ place_read self.old word }
        ensures same { (later : ℕ) → word ≤ later → place_read self.new later ≡ place_read self.old later }
        ensures words { self.new.words ≤ word + 1 }
    {
        while self.words <= word {
            if !self.step() {
                return WordPlace {
                    token: self.read as u32,
                    start: 0,
                };
            }
        }
        self.last
    }
}
