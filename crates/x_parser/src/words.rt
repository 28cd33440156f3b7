//! Reading of single words. Each function takes the tokens that are ahead, of which some may be no words,
//! and gives back those after what it read.
ghost use Rattle.std.specs.Prelude.{◌≡◌, ◌∷◌, [], Ok, Err, IfOk, IfErr, IfSome, IfNone, ◌+◌, IsTrue, ◌↔◌};
ghost use Rattle.x_lex.specs.Places.{lexeme};
ghost use Rattle.x_trees.specs.Gloss.{spell_value};
ghost use Rattle.x_trees.specs.Words.{Fixed, Name, Number, word_of, is_significant};
ghost use Rattle.x_trees.specs.View.{view_value};
ghost use Rattle.x_parser.specs.Symbols.{Symbol, Token as OfMark, AnyName, AnyNumber, AnyValue};
ghost use Rattle.x_parser.specs.Reading.{view_word, ahead, left_in, code_in, IsSplit, HasFirst, IsBefore};
ghost use Rattle.x_parser.specs.Reading.{Fails};
ghost use Rattle.x_parser.specs.Reading.{IsPart, LacksFirst};

use crate::{FaultCode, ParseError};
use std::alloc::Global;
use x_lex::{Kind, Mark, Token};
use x_trees::{Spelling, Value};

/// What a token is to the parser.
#[derive(Clone, Copy)]
pub enum Word<'t> {
    Mark(Mark),
    Name(&'t [u8]),
    Number(&'t [u8]),
    Other,
}

impl<'t> Word<'t> {
    /// The word that the token is.
    #[tactic(auto, unfolding(x_trees::specs::Words::word_by))]
    fn of(token: &Token<'t>) -> Word<'t>
        ensures { view_word result ≡ word_of (lexeme token.now) }
    {
        match token.kind {
            Kind::Keyword | Kind::Punct => marked(Mark::of(token.text)),
            Kind::Name => Word::Name(token.text),
            Kind::Number => Word::Number(token.text),
            _ => Word::Other,
        }
    }
}

/// The word of a mark that was looked for.
fn marked<'t>(mark: Option<Mark>) -> Word<'t>
    ensures { view_word result ≡ Rattle.x_trees.specs.Words.marked mark }
{
    match mark {
        Some(mark) => Word::Mark(mark),
        None => Word::Other,
    }
}

/// Whether tokens of the kind are words.
pub fn is_significant(kind: Kind) -> bool
    ensures { result ≡ is_significant kind }
{
    !matches!(
        kind,
        Kind::Space | Kind::Comment | Kind::Percent | Kind::Marker
    )
}

/// The first word, and the tokens after it.
pub fn split_word<'w, 't>(tokens: &'w [Token<'t>]) -> Option<(Token<'t>, &'w [Token<'t>])>
    ensures some { IfSome result (λ x. IsSplit tokens.now x.0 x.1.now) }
    ensures none { IfNone result (ahead tokens.now ≡ []) }
    ensures none_left { IfNone result (left_in tokens.now ≡ 0) }
    ensures none_code { IfNone result (code_in tokens.now ≡ FaultCode.Syntax) }
{
    for at in 0..tokens.len() {
        let token = tokens[at];
        if is_significant(token.kind) {
            return Some((token, &tokens[at + 1..]));
        }
    }
    None
}

/// The first word, and the tokens after it.
pub fn first<'w, 't>(tokens: &'w [Token<'t>]) -> Result<(Word<'t>, &'w [Token<'t>]), ParseError>
    ensures word { IfOk result (λ x. HasFirst tokens.now (view_word x.0) x.1.now) }
    ensures stuck { IfErr result (λ e. (s : Symbol) → Fails (s ∷ []) tokens.now e) }
{
    match split_word(tokens) {
        Some((token, rest)) => Ok((Word::of(&token), rest)),
        None => Err(ParseError::AtEnd),
    }
}

/// The tokens after the mark, if it is the first word.
pub fn strip_mark<'w, 't>(mark: Mark, tokens: &'w [Token<'t>]) -> Option<&'w [Token<'t>]>
    ensures some { IfSome result (λ rest. HasFirst tokens.now (Fixed mark) rest.now) }
    ensures none { IfNone result (LacksFirst tokens.now (Fixed mark)) }
{
    match split_word(tokens) {
        Some((token, rest)) => {
            if is_mark(&Word::of(&token), mark) {
                return Some(rest);
            }
            None
        }
        None => None,
    }
}

/// The error where no spelling goes on with the first word.
pub fn stuck_at(tokens: &[Token]) -> ParseError
    ensures { result ≡ ParseError.Stuck (left_in tokens.now) (code_in tokens.now) }
{
    match split_word(tokens) {
        Some((token, rest)) => ParseError::Stuck {
            left: rest.len() + 1,
            code: FaultCode::of_word(token.kind),
        },
        None => ParseError::Stuck {
            left: 0,
            code: FaultCode::Syntax,
        },
    }
}

/// Reads a mark.
pub fn expect<'w, 't>(mark: Mark, tokens: &'w [Token<'t>]) -> Result<&'w [Token<'t>], ParseError>
    ensures read { IfOk result (λ rest. IsPart (OfMark mark) tokens.now (Fixed mark ∷ []) rest.now) }
    ensures stuck { IfErr result (λ e. Fails (OfMark mark ∷ []) tokens.now e) }
{
    let (word, rest) = first(tokens)?;
    if is_mark(&word, mark) {
        return Ok(rest);
    }
    Err(stuck_at(tokens))
}

/// Reads the mark behind a value that was read, which it gives back.
pub fn terminated<'w, 't, T: Drop>(
    value: T,
    mark: Mark,
    tokens: &'w [Token<'t>],
) -> Result<(T, &'w [Token<'t>]), ParseError>
    ensures value { IfOk result (λ x. x.0 ≡ value) }
    ensures read { IfOk result (λ x. IsPart (OfMark mark) tokens.now (Fixed mark ∷ []) x.1.now) }
    ensures stuck { IfErr result (λ e. Fails (OfMark mark ∷ []) tokens.now e) }
{
    let rest = expect(mark, tokens)?;
    Ok((value, rest))
}

/// The value that was read, where no word stands behind it.
pub fn finish<T: Drop>(value: T, tokens: &[Token]) -> Result<T, ParseError>
    ensures value { IfOk result (λ x. x ≡ value) }
    ensures end { IfOk result (λ x. ahead tokens.now ≡ []) }
    ensures stuck { IfErr result (λ e. IsBefore tokens.now e) }
{
    match split_word(tokens) {
        Some(_) => Err(stuck_at(tokens)),
        None => Ok(value),
    }
}

/// Reads a name.
pub fn name<'w, 't>(
    alloc: Global,
    tokens: &'w [Token<'t>],
) -> Result<(Spelling, &'w [Token<'t>]), ParseError>
    ensures read { IfOk result (λ x. IsPart AnyName tokens.now (Name x.0.items ∷ []) x.1.now) }
    ensures stuck { IfErr result (λ e. Fails (AnyName ∷ []) tokens.now e) }
{
    let (word, rest) = first(tokens)?;
    match word {
        Word::Name(text) => Ok((Spelling::from_slice(alloc, text)?, rest)),
        _ => Err(stuck_at(tokens)),
    }
}

/// Reads a number.
pub fn number<'w, 't>(
    alloc: Global,
    tokens: &'w [Token<'t>],
) -> Result<(Spelling, &'w [Token<'t>]), ParseError>
    ensures read { IfOk result (λ x. IsPart AnyNumber tokens.now (Number x.0.items ∷ []) x.1.now) }
    ensures stuck { IfErr result (λ e. Fails (AnyNumber ∷ []) tokens.now e) }
{
    let (word, rest) = first(tokens)?;
    match word {
        Word::Number(text) => Ok((Spelling::from_slice(alloc, text)?, rest)),
        _ => Err(stuck_at(tokens)),
    }
}

/// Reads a number or a name.
pub fn value<'w, 't>(
    alloc: Global,
    tokens: &'w [Token<'t>],
) -> Result<(Value, &'w [Token<'t>]), ParseError>
    ensures read { IfOk result (λ x. IsPart AnyValue tokens.now (spell_value (view_value x.0) ∷ []) x.1.now) }
    ensures stuck { IfErr result (λ e. Fails (AnyValue ∷ []) tokens.now e) }
{
    let (word, rest) = first(tokens)?;
    match word {
        Word::Name(text) => Ok((Value::Named(Spelling::from_slice(alloc, text)?), rest)),
        Word::Number(text) => Ok((Value::Number(Spelling::from_slice(alloc, text)?), rest)),
        _ => Err(stuck_at(tokens)),
    }
}

/// Whether the word is the mark.
pub fn is_mark(word: &Word, mark: Mark) -> bool
    ensures { IsTrue result ↔ (view_word word.now ≡ Fixed mark) }
{
    match word {
        Word::Mark(found) => *found == mark,
        _ => false,
    }
}
