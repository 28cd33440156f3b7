//! Reading of the cases of an arm. Each function takes the tokens that are ahead, of which some may be no
//! words, and gives back those after what it read.
ghost use Rattle.std.specs.Prelude.{ℕ, [], ◌∷◌, map, IfOk, IfErr};
ghost use Rattle.x_trees.specs.Words.{Fixed};
ghost use Rattle.x_trees.specs.View.{view_value};
ghost use Rattle.x_trees.specs.Gloss.{spell_value};
ghost use Rattle.x_trees.specs.Spell.{spell_cases, HasOne};
ghost use Rattle.x_parser.specs.Symbols.{Token as OfMark, AnyValue, Declared, AfterCase};
ghost use Rattle.x_parser.specs.Reading.{ReadsPart, Fails};

use crate::ParseError;
use crate::ending::Ending;
use crate::words::{expect, strip_mark, value};
use std::alloc::Global;
use x_lex::{Mark, Token};
use x_trees::{Value, fitted};

/// Reads the values of an arm after its first `case`, each with its `:`.
pub fn cases<'w, 't>(
    alloc: Global,
    tokens: &'w [Token<'t>],
) -> Result<(Vec<Value>, &'w [Token<'t>]), ParseError>
    ensures read { IfOk result (λ x. (n : ℕ) → ReadsPart (Fixed Mark.Case ∷ [])
        (AnyValue ∷ OfMark Mark.Colon ∷ AfterCase n ∷ []) tokens.now
        (spell_cases (map view_value x.0.items)) (Declared n Ending.Semicolon ∷ []) x.1.now) }
    ensures some { IfOk result (λ x. HasOne (map view_value x.0.items)) }
    ensures stuck { IfErr result
        (λ e. (n : ℕ) → Fails (AnyValue ∷ OfMark Mark.Colon ∷ AfterCase n ∷ []) tokens.now e) }
{
    let (first_case, mut left) = case(alloc, tokens)?;
    let mut cases = Vec::new(alloc);
    cases.push(first_case)?;
    while let Some(rest) = strip_mark(Mark::Case, left) {
        let (next, rest) = case(alloc, rest)?;
        cases.push(next)?;
        left = rest;
    }
    Ok((fitted(cases), left))
}

/// Reads a value and its `:`.
fn case<'w, 't>(
    alloc: Global,
    tokens: &'w [Token<'t>],
) -> Result<(Value, &'w [Token<'t>]), ParseError>
    ensures read { IfOk result (λ x. ReadsPart [] (AnyValue ∷ OfMark Mark.Colon ∷ []) tokens.now
        (spell_value (view_value x.0) ∷ Fixed Mark.Colon ∷ []) [] x.1.now) }
    ensures stuck { IfErr result (λ e. Fails (AnyValue ∷ OfMark Mark.Colon ∷ []) tokens.now e) }
{
    let (value, rest) = value(alloc, tokens)?;
    let rest = expect(Mark::Colon, rest)?;
    Ok((value, rest))
}
