//! Where names stand in a text.

ghost use Rattle.std.specs.Prelude.{◌≡◌, ◌++◌, IfOk, OnOk, Some, map, slice_get};
ghost use Rattle.std.specs.List.{flat_map};
ghost use Rattle.x_lex.specs.Places.{lexeme};
ghost use Rattle.x_trees.specs.Collected.{view_mention, view_name};
ghost use Rattle.x_trees.specs.View.{view_definition};
ghost use Rattle.x_item.specs.Parse.{IsParse, Parse};
ghost use Rattle.x_compile.specs.Compile.{parsed_definition};
ghost use Rattle.x_session.specs.Session.{Compiles};
ghost use Rattle.x_lookups.specs.NamePlaces.{declared_on, is_own, is_use, mentioned_on, name_on};
ghost use Rattle.x_session.specs.DeclaredNames.{words_in};
ghost use Rattle.x_lookups.specs.NamePlaces.{names_by, names_of, standing_of, tokens_where};
ghost use Rattle.x_lookups.specs.Sought.{is_sought};

use std::alloc::Global;
use x_item::{DeclaredName, Definition, Glossary, Mention, is_significant, next_item};
use x_lex::Token;
use x_session::Session;
use x_text::NoMemory;

/// What a word does with a name.
#[derive(Clone, Copy, Debug, PartialEq, Eq)]
pub(crate) enum Standing {
    /// It is the name, and declares it.
    Declares,
    /// It declares the name of an inline type, which begins with another one.
    Lifts,
    /// It is the name, and uses it.
    Uses,
}

impl Standing {
    /// Of a word that declares a name.
    fn of_declared(lifted: bool) -> Standing
        ensures { result ≡ standing_of lifted }
    {
        if lifted {
            Standing::Lifts
        } else {
            Standing::Declares
        }
    }

    /// Whether the word is the name itself.
    fn is_own(self) -> bool
        ensures { result ≡ is_own self }
    {
        match self {
            Standing::Declares | Standing::Uses => true,
            Standing::Lifts => false,
        }
    }

    /// Whether the word uses the name.
    fn is_use(self) -> bool
        ensures { result ≡ is_use self }
    {
        match self {
            Standing::Uses => true,
            Standing::Declares | Standing::Lifts => false,
        }
    }
}

/// What is sought among the names of a text.
#[derive(Clone, Copy)]
pub enum Sought<'n> {
    /// Words that are a name.
    Own,
    /// Words at this place that are a name.
    At(usize),
    /// Words that declare this name.
    Declaring(&'n [u8]),
    /// Words that declare an inline type of this name.
    Lifting(&'n [u8]),
    /// Words that use it, and if asked for, those that declare it too.
    Using { name: &'n [u8], declared: bool },
}

impl<'n> Sought<'n> {
    /// Whether a name at a token is sought.
    fn fits(self, name: &[u8], token: &Token, standing: Standing) -> bool
        ensures { result ≡ is_sought self.entry
            (record { name = name.now; token = lexeme token.now; standing = standing }) }
    {
        match self {
            Sought::Own => standing.is_own(),
            Sought::At(at) => standing.is_own() && token.start <= at && at <= token.end,
            Sought::Declaring(sought) => !standing.is_use() && sought == name,
            Sought::Lifting(sought) => !standing.is_own() && sought == name,
            Sought::Using {
                name: sought,
                declared,
            } => { sought == name && (declared || standing.is_use()) }
        }
    }
}

/// The tokens of a text at which what is sought stands, item by item: in each first those that declare a
/// name.
///
/// # Errors
///
/// [`NoMemory`] where a list could not grow.
pub fn find_names<'s>(
    alloc: Global,
    session: &'s Session,
    sought: Sought,
) -> Result<Vec<Token<'s>>, NoMemory>
    ensures { IfOk result (λ found. Compiles session.now.known session.now.text
        (λ items. map lexeme found.items ≡ tokens_where (is_sought sought.entry) (names_of items))) }
{
    let mut found = Vec::new(alloc);
    let mut walk = session.tokens();
    let mut tokens = Vec::new(alloc);
    let mut glossary = Glossary::new(alloc);
    for item in 0..session.item_count() {
        next_item(&mut tokens, &mut walk)?;
        if let Some(definition) = session.definition(item) {
            add_names(
                alloc,
                definition,
                &mut glossary,
                &mut tokens,
                sought,
                &mut found,
            )?;
        }
    }
    Ok(found)
}

/// Adds the tokens of a definition at which what is sought stands. The lists of names are made in memory that
/// is used again.
fn add_names<'s, 'd>(
    alloc: Global,
    definition: &'d Definition,
    glossary: &mut Glossary<'d>,
    tokens: &mut Vec<Token<'s>>,
    sought: Sought,
    found: &mut Vec<Token<'s>>,
) -> Result<(), NoMemory>
    ensures { OnOk result ((parse : Parse) → IsParse (map lexeme tokens.old.items) parse
        → Some (view_definition definition.now) ≡ parsed_definition parse
        → map lexeme found.new.items ≡ map lexeme found.old.items ++ tokens_where (is_sought sought.entry)
        (names_by (map lexeme tokens.old.items) (Some (view_definition definition.now)))) }
{
    keep_words(tokens);
    glossary.read(alloc, definition)?;
    add_declared(found, &glossary.declared, tokens, sought)?;
    add_mentioned(found, &glossary.mentioned, tokens, sought)?;
    Ok(())
}

/// Takes out the tokens that are no words.
fn keep_words(tokens: &mut Vec<Token>)
    ensures { map lexeme tokens.new.items ≡ words_in (map lexeme tokens.old.items) }
{
    tokens.retain(|token| is_significant(token.kind));
}

/// Adds the words at which names stand that they declare, where these are sought.
fn add_declared<'s>(
    found: &mut Vec<Token<'s>>,
    declared: &[DeclaredName],
    words: &[Token<'s>],
    sought: Sought,
) -> Result<(), NoMemory>
    ensures { OnOk result (map lexeme found.new.items ≡ map lexeme found.old.items
        ++ tokens_where (is_sought sought.entry)
        (flat_map (declared_on (map lexeme words.now)) (map view_name declared.now))) }
{
    for name in declared {
        let standing = Standing::of_declared(name.lifted);
        add_name(
            found,
            words,
            name.word,
            name.name.as_slice(),
            standing,
            sought,
        )?;
    }
    Ok(())
}

/// Adds the words that use names, where these are sought.
fn add_mentioned<'s>(
    found: &mut Vec<Token<'s>>,
    mentioned: &[Mention],
    words: &[Token<'s>],
    sought: Sought,
) -> Result<(), NoMemory>
    ensures { OnOk result (map lexeme found.new.items ≡ map lexeme found.old.items
        ++ tokens_where (is_sought sought.entry)
        (flat_map (mentioned_on (map lexeme words.now)) (map view_mention mentioned.now))) }
{
    for mention in mentioned {
        add_name(
            found,
            words,
            mention.word,
            mention.name,
            Standing::Uses,
            sought,
        )?;
    }
    Ok(())
}

/// Adds the word at an index, where this name stands, if that is sought.
fn add_name<'s>(
    found: &mut Vec<Token<'s>>,
    words: &[Token<'s>],
    word: usize,
    name: &[u8],
    standing: Standing,
    sought: Sought,
) -> Result<(), NoMemory>
    ensures { OnOk result (map lexeme found.new.items ≡ map lexeme found.old.items
        ++ tokens_where (is_sought sought.entry)
        (name_on (slice_get (map lexeme words.now) word) name.now standing)) }
{
    if word >= words.len() {
        return Ok(());
    }
    let token = words[word];
    if sought.fits(name, &token, standing) {
        found.push(token)?;
    }
    Ok(())
}
