//! Reading of enumerators. Each function takes the tokens that are ahead, of which some may be no words, and
//! gives back those after what it read.
ghost use Rattle.std.specs.Prelude.{ℕ, List, [], ◌∷◌, ◌++◌, map, IfOk, IfErr};
ghost use Rattle.x_trees.specs.Words.{Fixed, Name};
ghost use Rattle.x_trees.specs.View.{view_most, view_enumerator};
ghost use Rattle.x_trees.specs.Spell.{spell_given, spell_enumerator, spell_enumerators, HasOne};
ghost use Rattle.x_parser.specs.Symbols.{Enumerators, AfterEnumerator, MoreEnumerators};
ghost use Rattle.x_parser.specs.Reading.{ReadsPart, IsPart, Fails};

use crate::ParseError;
use crate::words::{expect, name, strip_mark, value};
use std::alloc::Global;
use x_lex::{Mark, Token};
use x_trees::{Enumerator, Value};

/// Reads the enumerators of an enum, and its `}`.
pub fn enumerators<'w, 't>(
    alloc: Global,
    tokens: &'w [Token<'t>],
) -> Result<(Vec<Enumerator>, &'w [Token<'t>]), ParseError>
    ensures read { IfOk result (λ x. IsPart Enumerators tokens.now
        (spell_enumerators (map view_enumerator x.0.items) ++ Fixed Mark.CloseBrace ∷ []) x.1.now) }
    ensures some { IfOk result (λ x. HasOne (map view_enumerator x.0.items)) }
    ensures stuck { IfErr result (λ e. Fails (Enumerators ∷ []) tokens.now e) }
{
    let (member, mut left) = enumerator(alloc, tokens)?;
    let mut members = Vec::new(alloc);
    members.push(member)?;
    loop {
        if let Some(rest) = strip_mark(Mark::CloseBrace, left) {
            return Ok((members, rest));
        }
        let rest = expect(Mark::Comma, left)?;
        let (next, rest) = enumerator(alloc, rest)?;
        members.push(next)?;
        left = rest;
    }
}

/// Reads an enumerator.
fn enumerator<'w, 't>(
    alloc: Global,
    tokens: &'w [Token<'t>],
) -> Result<(Enumerator, &'w [Token<'t>]), ParseError>
    ensures read { IfOk result (λ x. ReadsPart [] (Enumerators ∷ []) tokens.now
        (spell_enumerator (view_enumerator x.0)) (MoreEnumerators ∷ []) x.1.now) }
    ensures stuck { IfErr result (λ e. Fails (Enumerators ∷ []) tokens.now e) }
{
    let (name, rest) = name(alloc, tokens)?;
    let (value, rest) = given_value(alloc, rest)?;
    Ok((Enumerator { name, value }, rest))
}

/// Reads the value of an enumerator, if it is given.
fn given_value<'w, 't>(
    alloc: Global,
    tokens: &'w [Token<'t>],
) -> Result<(Option<Value>, &'w [Token<'t>]), ParseError>
    ensures read { IfOk result (λ x. (name : List ℕ) → ReadsPart (Name name ∷ []) (AfterEnumerator ∷ [])
        tokens.now (Name name ∷ spell_given (view_most x.0)) (MoreEnumerators ∷ []) x.1.now) }
    ensures stuck { IfErr result (λ e. Fails (AfterEnumerator ∷ []) tokens.now e) }
{
    if let Some(rest) = strip_mark(Mark::Equals, tokens) {
        let (value, rest) = value(alloc, rest)?;
        return Ok((Some(value), rest));
    }
    Ok((None, tokens))
}
