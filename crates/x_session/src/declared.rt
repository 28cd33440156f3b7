//! Where the words of an open text stand, and where its names are declared first.

ghost use Rattle.std.specs.Prelude.{◌≡◌, IfOk, List, ℕ, map, option_map};
ghost use Rattle.x_lex.specs.Places.{lexeme};
ghost use Rattle.x_trees.specs.View.{tree_at};
ghost use Rattle.x_names.specs.Declarers.{first_declarer};
ghost use Rattle.x_names.specs.DeclarerTable.{first_in};
ghost use Rattle.x_compile.specs.Compile.{Item, definitions_of};
ghost use Rattle.x_session.specs.Session.{Compiles};
ghost use Rattle.x_session.specs.DeclaredNames.{IsTableOf, first_place, spot_at, word_at, word_of_item};
ghost use Rattle.x_session.specs.DeclaredNames.{word_spots, words_in};
ghost use Rattle.x_session.specs.DeclaredNames.{place_in, spot_in, word_spot};

use crate::session::Session;
use std::alloc::Global;
use x_item::{Definition, NameKind, is_significant, next_item};
use x_lex::Token;
use x_names::{Declarer, Names};
use x_text::{Lines, NoMemory};

/// A place of a text, with its line and its column.
#[derive(Clone, Copy, Debug, PartialEq, Eq)]
pub struct Spot {
    /// The place, in bytes.
    pub start: usize,
    /// Its line, counted from 1.
    pub line: u32,
    /// Its column in bytes, counted from 1.
    pub column: u32,
}

/// Where a name is declared first, and as what.
#[derive(Clone, Copy, Debug, PartialEq, Eq)]
pub struct FirstPlace {
    /// What it is declared as.
    pub kind: NameKind,
    /// Where the word starts that declares it.
    pub spot: Spot,
}

/// Where the names of a text are declared first.
#[derive(Drop)]
pub struct DeclaredNames<'s> {
    names: Names<'s>,
    /// Where the words of each item start.
    words: Vec<Vec<Spot>>,
}

impl<'s> DeclaredNames<'s> {
    /// The names of a text, over which this goes twice.
    ///
    /// # Errors
    ///
    /// [`NoMemory`] where a table could not grow.
    pub fn of(alloc: Global, session: &'s Session) -> Result<DeclaredNames<'s>, NoMemory>
        ensures { IfOk result (λ table. Compiles session.now.known session.now.text
            (λ items. IsTableOf session.now.text items table)) }
    {
        let words = words(alloc, session)?;
        let names = names(alloc, session)?;
        Ok(DeclaredNames { names, words })
    }

    /// Where a name is declared first (RFC 4506, section 6.4).
    pub fn first(&self, name: &[u8]) -> Option<FirstPlace>
        ensures by_table { result ≡ place_in self.now name.now }
        ensures by_items { (text : List ℕ) (items : List Item) → IsTableOf text items self.now
            → result ≡ first_place text items name.now }
    {
        let declarer = self.names.first(name)?;
        match self.spot(&declarer) {
            Some(spot) => Some(FirstPlace {
                kind: declarer.kind,
                spot,
            }),
            None => None,
        }
    }

    /// Who declares a name first (RFC 4506, section 6.4).
    pub fn first_declarer(&self, name: &[u8]) -> Option<Declarer>
        ensures { (text : List ℕ) (items : List Item) → IsTableOf text items self.now
            → result ≡ first_declarer (definitions_of items) name.now }
    {
        self.names.first(name)
    }

    /// Where the word starts that declares a name.
    pub fn spot(&self, declarer: &Declarer) -> Option<Spot>
        ensures by_table { result ≡ spot_in self.now declarer.now }
        ensures by_items { (text : List ℕ) (items : List Item) → IsTableOf text items self.now
            → result ≡ option_map (λ t. spot_at text t.start) (word_at items declarer.now) }
    {
        self.word(declarer.item, declarer.word)
    }

    /// Where a word of an item starts; both are counted from 0.
    pub fn word(&self, item: usize, word: usize) -> Option<Spot>
        ensures by_table { result ≡ word_spot self.now item word }
        ensures by_items { (text : List ℕ) (items : List Item) → IsTableOf text items self.now
            → result ≡ option_map (λ t. spot_at text t.start) (word_of_item items item word) }
    {
        let words = self.words.get(item)?;
        words.get(word).copied()
    }
}

/// The definitions of a text, by item.
///
/// # Errors
///
/// [`NoMemory`] where the list could not grow.
pub fn definitions(alloc: Global, session: &Session) -> Result<Vec<Option<&Definition>>, NoMemory>
    ensures { IfOk result (λ list. Compiles session.now.known session.now.text
        (λ items. map tree_at list.items ≡ definitions_of items)) }
{
    let mut list = Vec::new(alloc);
    for item in 0..session.item_count() {
        list.push(session.definition(item))?;
    }
    Ok(list)
}

/// The first declarers of a text's names (RFC 4506, section 6.4).
///
/// # Errors
///
/// [`NoMemory`] where a table could not grow.
pub fn names(alloc: Global, session: &Session) -> Result<Names<'_>, NoMemory>
    ensures { IfOk result (λ names. Compiles session.now.known session.now.text (λ items.
        (name : List ℕ) → first_in names name ≡ first_declarer (definitions_of items) name)) }
{
    // So many tokens fit, and no definition has more words.
    let _ = session.token_count();
    let definitions = definitions(alloc, session)?;
    Names::keyed(alloc, session.hash_key(), &definitions)
}

/// Where the words of each item of a text start.
fn words(alloc: Global, session: &Session) -> Result<Vec<Vec<Spot>>, NoMemory>
    ensures { IfOk result (λ list. Compiles session.now.known session.now.text (λ items.
        map (λ v. v.items) list.items ≡ map (word_spots session.now.text) items)) }
{
    let mut list = Vec::new(alloc);
    let mut walk = session.tokens();
    let mut lines = session.lines();
    let mut tokens = Vec::new(alloc);
    for _ in 0..session.item_count() {
        next_item(&mut tokens, &mut walk)?;
        list.push(spots(alloc, &tokens, &mut lines)?)?;
    }
    Ok(list)
}

/// Where the words among tokens start.
fn spots(alloc: Global, tokens: &[Token], lines: &mut Lines) -> Result<Vec<Spot>, NoMemory>
    ensures spots { IfOk result (λ list. list.items
        ≡ map (λ t. spot_at lines.old t.start) (words_in (map lexeme tokens.now))) }
    ensures same { lines.new ≡ lines.old }
{
    let mut list = Vec::new(alloc);
    for token in tokens {
        if is_significant(token.kind) {
            let (line, column) = lines.line_col(token.start);
            list.push(Spot {
                start: token.start,
                line,
                column,
            })?;
        }
    }
    Ok(list)
}
