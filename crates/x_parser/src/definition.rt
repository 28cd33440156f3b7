//! Reading of definitions. Each function takes the tokens that are ahead, of which some may be no words, and
//! gives back those after what it read.
ghost use Rattle.std.specs.Prelude.{[], ◌∷◌, IfOk, IfErr};
ghost use Rattle.x_trees.specs.Words.{Fixed};
ghost use Rattle.x_trees.specs.View.{view_definition};
ghost use Rattle.x_trees.specs.Gloss.{tag_mark};
ghost use Rattle.x_trees.specs.Spell.{spell, KeepsLimits};
ghost use Rattle.x_parser.specs.Symbols.{Item, of_constant, of_new_type, of_program};
ghost use Rattle.x_parser.specs.Reading.{ReadsPart, Fails};

use crate::ParseError;
use crate::declaration::{body, declared};
use crate::ending::Ending;
use crate::program::{assigned_number, versions};
use crate::words::{Word, expect, first, name, stuck_at, terminated, value};
use std::alloc::Global;
use x_lex::{Mark, Token};
use x_trees::{Definition, MOST_INLINE, Tag, fitted};

/// Reads a definition.
pub fn definition<'w, 't>(
    alloc: Global,
    tokens: &'w [Token<'t>],
) -> Result<(Definition, &'w [Token<'t>]), ParseError>
    ensures read { IfOk result (λ x. ReadsPart [] (Item ∷ []) tokens.now
        (spell (view_definition x.0)) [] x.1.now) }
    ensures fits { IfOk result (λ x. KeepsLimits (view_definition x.0)) }
    ensures stuck { IfErr result (λ e. Fails (Item ∷ []) tokens.now e) }
{
    let (word, rest) = first(tokens)?;
    match word {
        Word::Mark(mark) => match mark {
            Mark::Const => constant(alloc, rest),
            Mark::Typedef => {
                let (declaration, rest) = declared(alloc, MOST_INLINE, Ending::Semicolon, rest)?;
                Ok((Definition::Typedef(Box::new(alloc, declaration)?), rest))
            }
            Mark::Enum => new_type(alloc, Tag::Enum, rest),
            Mark::Struct => new_type(alloc, Tag::Struct, rest),
            Mark::Union => new_type(alloc, Tag::Union, rest),
            Mark::Program => program(alloc, rest),
            _ => Err(stuck_at(tokens)),
        },
        _ => Err(stuck_at(tokens)),
    }
}

/// Reads what stands after `const`.
fn constant<'w, 't>(
    alloc: Global,
    tokens: &'w [Token<'t>],
) -> Result<(Definition, &'w [Token<'t>]), ParseError>
    ensures read { IfOk result (λ x. ReadsPart (Fixed Mark.Const ∷ []) of_constant tokens.now
        (spell (view_definition x.0)) [] x.1.now) }
    ensures fits { IfOk result (λ x. KeepsLimits (view_definition x.0)) }
    ensures stuck { IfErr result (λ e. Fails of_constant tokens.now e) }
{
    let (name, rest) = name(alloc, tokens)?;
    let rest = expect(Mark::Equals, rest)?;
    let (value, rest) = value(alloc, rest)?;
    let rest = expect(Mark::Semicolon, rest)?;
    Ok((Definition::Const { name, value }, rest))
}

/// Reads what stands after the `enum`, `struct` or `union` of a definition.
fn new_type<'w, 't>(
    alloc: Global,
    tag: Tag,
    tokens: &'w [Token<'t>],
) -> Result<(Definition, &'w [Token<'t>]), ParseError>
    ensures read { IfOk result (λ x. ReadsPart (Fixed (tag_mark tag) ∷ []) (of_new_type tag) tokens.now
        (spell (view_definition x.0)) [] x.1.now) }
    ensures fits { IfOk result (λ x. KeepsLimits (view_definition x.0)) }
    ensures stuck { IfErr result (λ e. Fails (of_new_type tag) tokens.now e) }
{
    let (name, rest) = name(alloc, tokens)?;
    let (body, rest) = body(alloc, tag, MOST_INLINE, rest)?;
    let (body, rest) = terminated(body, Mark::Semicolon, rest)?;
    Ok((Definition::NewType { name, body }, rest))
}

/// Reads what stands after `program`.
fn program<'w, 't>(
    alloc: Global,
    tokens: &'w [Token<'t>],
) -> Result<(Definition, &'w [Token<'t>]), ParseError>
    ensures read { IfOk result (λ x. ReadsPart (Fixed Mark.Program ∷ []) of_program tokens.now
        (spell (view_definition x.0)) [] x.1.now) }
    ensures fits { IfOk result (λ x. KeepsLimits (view_definition x.0)) }
    ensures stuck { IfErr result (λ e. Fails of_program tokens.now e) }
{
    let (name, rest) = name(alloc, tokens)?;
    let (versions, rest) = versions(alloc, rest)?;
    let (number, rest) = assigned_number(alloc, rest)?;
    let definition = Definition::Program {
        name,
        versions: fitted(versions),
        number,
    };
    Ok((definition, rest))
}
