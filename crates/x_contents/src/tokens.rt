//! What the tokens of a document are.

ghost use Rattle.std.specs.Prelude.{◌≡◌, ◌++◌, ◌<◌, ◌-◌, ◌^◌, codes, length, map, slice_get, slice_set};
ghost use Rattle.std.specs.Prelude.{IfOk, OnOk, Some};
ghost use Rattle.std.specs.List.{flat_map};
ghost use Rattle.serde_json.specs.Written.{compact_text};
ghost use Rattle.x_lex.specs.Places.{lexeme};
ghost use Rattle.x_trees.specs.Collected.{view_mention};
ghost use Rattle.x_trees.specs.Spell.{spell};
ghost use Rattle.x_trees.specs.View.{tree_at, view_definition};
ghost use Rattle.x_item.specs.Parse.{IsParse, Parse};
ghost use Rattle.x_names.specs.DeclarerTable.{first_in};
ghost use Rattle.x_compile.specs.Compile.{parsed_definition};
ghost use Rattle.x_session.specs.Session.{Compiles};
ghost use Rattle.x_session.specs.ItemWalks.{over_items};
ghost use Rattle.x_frames.specs.ListTexts.{ended};
ghost use Rattle.x_positions.specs.Positions.{position_of};
ghost use Rattle.x_contents.specs.Reading.{told_of};
ghost use Rattle.x_contents.specs.TokenKinds.{kind_alone, kind_declared, kind_of_part, kind_unparsed};
ghost use Rattle.x_contents.specs.TokenKinds.{kind_used, kinds_in, with_kind, with_part_kinds, with_uses};
ghost use Rattle.x_contents.specs.TokenKinds.{word_places};
ghost use Rattle.x_contents.specs.Tokens.{ends_at, kind_if, number_text, numbers_in, tokens_data};
ghost use Rattle.x_contents.specs.Tokens.{with_item_tokens, with_lines, with_piece, with_token, with_tokens};

use std::alloc::Global;
use x_frames::{end_list, write_number};
use x_item::{Definition, Glossary, Mention, NameKind, is_significant, next_item};
use x_lex::{Kind, Token};
use x_lookups::{Part, PartKind, parts_of};
use x_names::{Names, is_beforehand};
use x_positions::{Encoding, Places, Position};
use x_session::{Session, names};
use x_text::{NoMemory, Source};

/// What a token is, in the order of `tokenTypes` in the server's capabilities.
#[derive(Clone, Copy, Debug, PartialEq, Eq)]
enum TokenKind {
    Keyword,
    Comment,
    Number,
    Macro,
    Type,
    Struct,
    Enum,
    EnumMember,
    Namespace,
    Method,
    Property,
}

impl TokenKind {
    /// Of a token that is what it is wherever it stands.
    fn of_kind(kind: Kind) -> Option<TokenKind>
        ensures { result ≡ kind_alone kind }
    {
        match kind {
            Kind::Comment | Kind::OpenComment => Some(TokenKind::Comment),
            Kind::Percent | Kind::Marker | Kind::Directive => Some(TokenKind::Macro),
            Kind::Keyword => Some(TokenKind::Keyword),
            Kind::Number => Some(TokenKind::Number),
            Kind::Space | Kind::Name | Kind::BadNumber | Kind::Punct | Kind::BadByte => None,
        }
    }

    /// Of the name of a part of a definition.
    fn of_part(kind: PartKind) -> TokenKind
        ensures { result ≡ kind_of_part kind }
    {
        match kind {
            PartKind::Constant | PartKind::Enumerator => TokenKind::EnumMember,
            PartKind::Enum => TokenKind::Enum,
            PartKind::Struct | PartKind::Union => TokenKind::Struct,
            PartKind::Typedef => TokenKind::Type,
            PartKind::Field => TokenKind::Property,
            PartKind::Program | PartKind::Version => TokenKind::Namespace,
            PartKind::Procedure => TokenKind::Method,
        }
    }

    /// Of a name that is declared as this.
    fn of_declared(kind: NameKind) -> TokenKind
        ensures { result ≡ kind_declared kind }
    {
        match kind {
            NameKind::Constant => TokenKind::EnumMember,
            NameKind::Enum => TokenKind::Enum,
            NameKind::Struct | NameKind::Union => TokenKind::Struct,
            NameKind::Typedef => TokenKind::Type,
            NameKind::Program => TokenKind::Namespace,
        }
    }

    /// Of a name that is used: by what declares it first.
    fn of_used(names: &Names, name: &[u8]) -> Option<TokenKind>
        ensures { result ≡ kind_used (first_in names.now) name.now }
    {
        if is_beforehand(name) {
            return Some(TokenKind::EnumMember);
        }
        match names.first(name) {
            Some(declarer) => Some(TokenKind::of_declared(declarer.kind)),
            None => None,
        }
    }

    /// Of a token in an item that has no definition.
    fn of_unparsed(names: &Names, token: &Token) -> Option<TokenKind>
        ensures { result ≡ kind_unparsed (first_in names.now) token.now.kind token.now.text.now }
    {
        match token.kind {
            Kind::Name => TokenKind::of_used(names, token.text),
            kind => TokenKind::of_kind(kind),
        }
    }
}

/// The position of a text's first character.
const FIRST: Position = Position {
    line: 0,
    character: 0,
};

/// What the tokens of a document are: `SemanticTokens`.
pub(crate) fn tokens(
    alloc: Global,
    encoding: Encoding,
    shown: &Source,
    session: &Session,
) -> Result<Vec<u8>, NoMemory>
    ensures { IfOk result (λ text. Compiles session.now.known session.now.text
        (λ items. text.items ≡ compact_text (tokens_data (numbers_in encoding shown.now items)))) }
{
    let names = names(alloc, session)?;
    let mut told = ToldTokens {
        numbers: Vec::new(alloc),
        places: Places::of(encoding, shown.bytes()),
        before: FIRST,
    };
    told.add_items(alloc, shown, session, &names)?;
    let text = numbers_text(alloc, &told.numbers)?;
    Ok(text)
}

/// The text of numbers that tell of tokens.
fn numbers_text(alloc: Global, numbers: &[usize]) -> Result<Vec<u8>, NoMemory>
    ensures { IfOk result (λ text. text.items ≡ compact_text (tokens_data numbers.now)) }
{
    let list = list_text(alloc, numbers)?;
    let mut text = Vec::from_slice(alloc, b"{\"data\":")?;
    text.extend_from_slice(&list)?;
    text.extend_from_slice(b"}")?;
    Ok(text)
}

/// The text of a list of numbers.
fn list_text(alloc: Global, numbers: &[usize]) -> Result<Vec<u8>, NoMemory>
    ensures { IfOk result
        (λ text. text.items ≡ ended (codes "[" ++ flat_map number_text numbers.now)) }
{
    let mut text = Vec::from_slice(alloc, b"[")?;
    for number in numbers {
        write_number(&mut text, *number)?;
        text.extend_from_slice(b",")?;
    }
    end_list(&mut text)?;
    Ok(text)
}

/// Finds what the tokens of an item are.
fn kinds_in(
    alloc: Global,
    names: &Names,
    definition: Option<&Definition>,
    tokens: &[Token],
) -> Result<Vec<Option<TokenKind>>, NoMemory>
    ensures { IfOk result (λ kinds. (parse : Parse) → IsParse (map lexeme tokens.now) parse
        → tree_at definition.entry ≡ parsed_definition parse
        → kinds.items ≡ kinds_in (first_in names.now) (map lexeme tokens.now) (tree_at definition.entry)) }
{
    match definition {
        Some(definition) => {
            let kinds = kinds_parsed(alloc, names, definition, tokens)?;
            Ok(kinds)
        }
        None => kinds_unparsed(alloc, names, tokens),
    }
}

/// What tokens are in an item that has no definition.
fn kinds_unparsed(
    alloc: Global,
    names: &Names,
    tokens: &[Token],
) -> Result<Vec<Option<TokenKind>>, NoMemory>
    ensures { IfOk result (λ kinds. kinds.items
        ≡ map (λ t. kind_unparsed (first_in names.now) t.kind t.text) (map lexeme tokens.now)) }
{
    let mut kinds = Vec::new(alloc);
    for token in tokens {
        kinds.push(TokenKind::of_unparsed(names, token))?;
    }
    Ok(kinds)
}

/// What the tokens of a definition are.
fn kinds_parsed(
    alloc: Global,
    names: &Names,
    definition: &Definition,
    tokens: &[Token],
) -> Result<Vec<Option<TokenKind>>, NoMemory>
    ensures { IfOk result (λ kinds. length (spell (view_definition definition.now)) < 2 ^ 64
        → kinds.items ≡ kinds_in (first_in names.now) (map lexeme tokens.now)
        (Some (view_definition definition.now))) }
{
    let mut kinds = kinds_alone(alloc, tokens)?;
    let words = word_places(alloc, tokens)?;
    let mut glossary = Glossary::new(alloc);
    glossary.read(alloc, definition)?;
    put_uses(names, &words, &glossary.mentioned, &mut kinds);
    put_parts(&parts_of(alloc, tokens)?, &mut kinds);
    Ok(kinds)
}

/// What tokens are wherever they stand.
fn kinds_alone(alloc: Global, tokens: &[Token]) -> Result<Vec<Option<TokenKind>>, NoMemory>
    ensures { IfOk result
        (λ kinds. kinds.items ≡ map (λ t. kind_alone t.kind) (map lexeme tokens.now)) }
{
    let mut kinds = Vec::new(alloc);
    for token in tokens {
        kinds.push(TokenKind::of_kind(token.kind))?;
    }
    Ok(kinds)
}

/// The places of the words among tokens.
fn word_places(alloc: Global, tokens: &[Token]) -> Result<Vec<usize>, NoMemory>
    ensures { IfOk result (λ places. places.items ≡ word_places 0 (map lexeme tokens.now)) }
{
    let mut places = Vec::new(alloc);
    for (place, token) in tokens.iter().enumerate() {
        if is_significant(token.kind) {
            places.push(place)?;
        }
    }
    Ok(places)
}

/// Tells what the names are that a definition uses, at its words.
fn put_uses(
    names: &Names,
    words: &[usize],
    mentioned: &[Mention],
    kinds: &mut Vec<Option<TokenKind>>,
)
    ensures { kinds.new.items ≡ with_uses (first_in names.now) words.now kinds.old.items
        (map view_mention mentioned.now) }
{
    for mention in mentioned {
        let kind = TokenKind::of_used(names, mention.name);
        put_kind_at(kinds, place_of(words, mention.word), kind);
    }
}

/// The place of a word, if there is one.
fn place_of(words: &[usize], word: usize) -> Option<usize>
    ensures { result ≡ slice_get words.now word }
{
    words.get(word).copied()
}

/// Tells what the token at a place is, if there is one.
fn put_kind_at(kinds: &mut Vec<Option<TokenKind>>, place: Option<usize>, kind: Option<TokenKind>)
    ensures { kinds.new.items ≡ with_kind kinds.old.items place kind }
{
    if let Some(place) = place {
        put_kind(kinds, place, kind);
    }
}

/// Tells what the parts of a definition are, at their names.
fn put_parts(parts: &[Part], kinds: &mut Vec<Option<TokenKind>>)
    ensures { kinds.new.items ≡ with_part_kinds kinds.old.items parts.now }
{
    for part in parts {
        put_kind(kinds, part.name, Some(TokenKind::of_part(part.kind)));
    }
}

fn put_kind(kinds: &mut Vec<Option<TokenKind>>, place: usize, kind: Option<TokenKind>)
    ensures { kinds.new.items ≡ slice_set kinds.old.items place kind }
{
    if place < kinds.len() {
        kinds[place] = kind;
    }
}

/// What the token at a place is.
fn kind_at(kinds: &[Option<TokenKind>], place: usize) -> Option<TokenKind>
    ensures { result ≡ kind_if (slice_get kinds.now place) }
{
    match kinds.get(place) {
        Some(kind) => *kind,
        None => None,
    }
}

/// Whether a line ends at a place of a text.
fn ends_at(shown: &[u8], at: usize) -> bool
    ensures { result ≡ ends_at shown.now at }
{
    match shown.get(at) {
        Some(b'\n') => true,
        Some(b'\r') => shown.get(at.saturating_add(1)) != Some(&b'\n'),
        _ => false,
    }
}

/// What is told of tokens so far.
#[derive(Drop)]
struct ToldTokens<'s> {
    /// Five numbers a token: the lines and the characters from the one before, its length, its type, and that
    /// it has no modifier.
    numbers: Vec<usize>,
    places: Places<'s>,
    /// The start of the token that was told last.
    before: Position,
}

impl ToldTokens<'_> {
    /// Adds the tokens of a text, item by item.
    fn add_items(
        &mut self,
        alloc: Global,
        shown: &Source,
        session: &Session,
        names: &Names,
    ) -> Result<(), NoMemory>
        requires { self.old.places.text ≡ shown.now }
        ensures { OnOk result (Compiles session.now.known session.now.text (λ items. told_of self.new
            ≡ over_items (with_item_tokens self.old.places.encoding shown.now (first_in names.now))
            (told_of self.old) items)) }
    {
        let mut walk = session.tokens();
        let mut tokens = Vec::new(alloc);
        for item in 0..session.item_count() {
            next_item(&mut tokens, &mut walk)?;
            let definition = session.definition(item);
            self.add_item(alloc, shown, names, definition, &tokens)?;
        }
        Ok(())
    }

    /// Adds the tokens of an item.
    fn add_item(
        &mut self,
        alloc: Global,
        shown: &Source,
        names: &Names,
        definition: Option<&Definition>,
        tokens: &[Token],
    ) -> Result<(), NoMemory>
        requires { self.old.places.text ≡ shown.now }
        ensures told { OnOk result ((parse : Parse) → IsParse (map lexeme tokens.now) parse
            → tree_at definition.entry ≡ parsed_definition parse
            → told_of self.new ≡ with_item_tokens self.old.places.encoding shown.now (first_in names.now)
            (told_of self.old) (map lexeme tokens.now) (tree_at definition.entry)) }
        ensures places { self.new.places ≡ self.old.places }
    {
        let kinds = kinds_in(alloc, names, definition, tokens)?;
        self.add_tokens(shown.bytes(), tokens, &kinds)?;
        Ok(())
    }

    /// Adds tokens of these kinds.
    fn add_tokens(
        &mut self,
        shown: &[u8],
        tokens: &[Token],
        kinds: &[Option<TokenKind>],
    ) -> Result<(), NoMemory>
        requires { self.old.places.text ≡ shown.now }
        ensures told { OnOk result (told_of self.new ≡ with_tokens self.old.places.encoding shown.now
            kinds.now (told_of self.old) 0 (map lexeme tokens.now)) }
        ensures places { self.new.places ≡ self.old.places }
    {
        for (place, token) in tokens.iter().enumerate() {
            self.add_token(shown, token, kinds, place)?;
        }
        Ok(())
    }

    /// Adds a token of the kind at a place; one that is of no kind is not told.
    fn add_token(
        &mut self,
        shown: &[u8],
        token: &Token,
        kinds: &[Option<TokenKind>],
        place: usize,
    ) -> Result<(), NoMemory>
        requires { self.old.places.text ≡ shown.now }
        ensures told { OnOk result (told_of self.new ≡ with_token self.old.places.encoding shown.now
            (told_of self.old) (lexeme token.now) (kind_if (slice_get kinds.now place))) }
        ensures places { self.new.places ≡ self.old.places }
    {
        match kind_at(kinds, place) {
            Some(kind) => self.add_lines(shown, token, kind),
            None => Ok(()),
        }
    }

    /// Adds a token, line by line.
    #[tactic(auto, using(crate::proofs::TokenLemmas::lines_more, crate::proofs::TokenLemmas::lines_end))]
    fn add_lines(&mut self, shown: &[u8], token: &Token, kind: TokenKind) -> Result<(), NoMemory>
        requires { self.old.places.text ≡ shown.now }
        ensures told { OnOk result (told_of self.new ≡ with_lines self.old.places.encoding shown.now kind
            (told_of self.old) token.now.start token.now.end token.now.start
            (token.now.end - token.now.start)) }
        ensures places { self.new.places ≡ self.old.places }
    {
        let mut start = token.start;
        for at in token.start..token.end {
            if ends_at(shown, at) {
                self.add_part(start, at, kind)?;
                start = at + 1;
            }
        }
        self.add_part(start, token.end, kind)
    }

    /// Adds what stands of a token in one line, from a place to another; nothing where that is nothing.
    fn add_part(&mut self, start: usize, end: usize, kind: TokenKind) -> Result<(), NoMemory>
        ensures told { OnOk result (told_of self.new ≡ with_piece (told_of self.old)
            (position_of self.old.places.encoding self.old.places.text start)
            (position_of self.old.places.encoding self.old.places.text end) kind) }
        ensures places { self.new.places ≡ self.old.places }
    {
        let start = self.places.position(start);
        let end = self.places.position(end);
        let length = end.character.saturating_sub(start.character);
        if length == 0 {
            return Ok(());
        }
        let lines = start.line.saturating_sub(self.before.line);
        let characters = if lines == 0 {
            start.character.saturating_sub(self.before.character)
        } else {
            start.character
        };
        let numbers = [lines, characters, length, kind as usize, 0];
        self.numbers.extend_from_slice(&numbers)?;
        self.before = start;
        Ok(())
    }
}
