//! The definition that an item is.
ghost use Rattle.std.specs.Prelude.{◌≡◌, map, IfOk, IfErr};
ghost use Rattle.x_lex.specs.Places.{lexeme};
ghost use Rattle.x_trees.specs.Words.{words_of};
ghost use Rattle.x_trees.specs.View.{view_definition};
ghost use Rattle.x_trees.specs.Spell.{spell, KeepsLimits};
ghost use Rattle.x_parser.specs.Reading.{IsRefused};

use crate::ParseError;
use crate::definition::definition;
use crate::words::finish;
use std::alloc::Global;
use x_lex::Token;
use x_trees::Definition;

/// The definition that all words of the tokens spell.
///
/// # Errors
///
/// Where the words spell none: with which token no spelling goes on, or that all of them begin one; or that
/// memory ran out.
pub fn complete_definition(alloc: Global, tokens: &[Token]) -> Result<Definition, ParseError>
    ensures found { IfOk result (λ d. spell (view_definition d) ≡ words_of (map lexeme tokens.now)) }
    ensures fits { IfOk result (λ d. KeepsLimits (view_definition d)) }
    ensures stuck { IfErr result (λ e. IsRefused (map lexeme tokens.now) e) }
{
    let (definition, rest) = definition(alloc, tokens)?;
    finish(definition, rest)
}
