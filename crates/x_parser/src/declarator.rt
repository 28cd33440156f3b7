//! Reading of declarators: the name of a declaration, what stands around it, and sizes. Each function takes
//! the tokens that are ahead, of which some may be no words, and gives back those after what it read.
ghost use Rattle.std.specs.Prelude.{ℕ, List, [], ◌∷◌, ◌++◌, IfOk, IfErr};
ghost use Rattle.x_trees.specs.Words.{Fixed, Name};
ghost use Rattle.x_trees.specs.View.{view_most, view_length, view_shape};
ghost use Rattle.x_trees.specs.Spell.{spell_most, spell_length, spell_named};
ghost use Rattle.x_parser.specs.Symbols.{InDeclaration, AnyLength, AfterLess, AfterName, AfterType};
ghost use Rattle.x_parser.specs.Symbols.{ending_mark};
ghost use Rattle.x_parser.specs.Reading.{ReadsPart, IsPart, Fails};

use crate::ParseError;
use crate::ending::Ending;
use crate::words::{expect, name, strip_mark, value};
use std::alloc::Global;
use x_lex::{Mark, Token};
use x_trees::{Length, Shape, Spelling, Value};

/// Reads what stands between `<` and `>`, and the `>`.
pub fn greatest_length<'w, 't>(
    alloc: Global,
    tokens: &'w [Token<'t>],
) -> Result<(Option<Value>, &'w [Token<'t>]), ParseError>
    ensures read { IfOk result (λ x. IsPart AfterLess tokens.now
        (spell_most (view_most x.0) ++ Fixed Mark.Greater ∷ []) x.1.now) }
    ensures stuck { IfErr result (λ e. Fails (AfterLess ∷ []) tokens.now e) }
{
    if let Some(rest) = strip_mark(Mark::Greater, tokens) {
        return Ok((None, rest));
    }
    let (size, rest) = value(alloc, tokens)?;
    let rest = expect(Mark::Greater, rest)?;
    Ok((Some(size), rest))
}

/// Reads the length of an array, with its brackets.
pub fn array_length<'w, 't>(
    alloc: Global,
    tokens: &'w [Token<'t>],
) -> Result<(Length, &'w [Token<'t>]), ParseError>
    ensures read { IfOk result (λ x. IsPart AnyLength tokens.now (spell_length (view_length x.0)) x.1.now) }
    ensures stuck { IfErr result (λ e. Fails (AnyLength ∷ []) tokens.now e) }
{
    if let Some(rest) = strip_mark(Mark::Less, tokens) {
        let (size, rest) = greatest_length(alloc, rest)?;
        return Ok((Length::Variable(size), rest));
    }
    let rest = expect(Mark::OpenBracket, tokens)?;
    let (size, rest) = value(alloc, rest)?;
    let rest = expect(Mark::CloseBracket, rest)?;
    Ok((Length::Fixed(size), rest))
}

/// Reads what stands after the name of a declaration, and its ending.
fn suffix<'w, 't>(
    alloc: Global,
    ending: Ending,
    tokens: &'w [Token<'t>],
) -> Result<(Shape, &'w [Token<'t>]), ParseError>
    ensures read { IfOk result (λ x. (name : List ℕ) → ReadsPart (Name name ∷ []) (AfterName ending ∷ [])
        tokens.now (spell_named name (view_shape x.0) ++ Fixed (ending_mark ending) ∷ []) [] x.1.now) }
    ensures stuck { IfErr result (λ e. Fails (AfterName ending ∷ []) tokens.now e) }
{
    if let Some(rest) = strip_mark(ending.mark(), tokens) {
        return Ok((Shape::Plain, rest));
    }
    let (length, rest) = array_length(alloc, tokens)?;
    let rest = expect(ending.mark(), rest)?;
    Ok((Shape::Array(length), rest))
}

/// Reads the name of a declaration, with what stands around it and the ending.
pub fn named<'w, 't>(
    alloc: Global,
    ending: Ending,
    tokens: &'w [Token<'t>],
) -> Result<(Spelling, Shape, &'w [Token<'t>]), ParseError>
    ensures read { IfOk result (λ x. IsPart (AfterType (InDeclaration ending)) tokens.now
        (spell_named x.0.items (view_shape x.1) ++ Fixed (ending_mark ending) ∷ []) x.2.now) }
    ensures stuck { IfErr result (λ e. Fails (AfterType (InDeclaration ending) ∷ []) tokens.now e) }
{
    if let Some(rest) = strip_mark(Mark::Star, tokens) {
        let (text, rest) = name(alloc, rest)?;
        let rest = expect(ending.mark(), rest)?;
        return Ok((text, Shape::Optional, rest));
    }
    let (text, rest) = name(alloc, tokens)?;
    let (shape, rest) = suffix(alloc, ending, rest)?;
    Ok((text, shape, rest))
}
