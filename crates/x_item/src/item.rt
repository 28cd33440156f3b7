//! What the tokens of an item are.
ghost use Rattle.std.specs.Prelude.{◌≡◌, ◌≢◌, [], map, IfOk, IfSome, IfNone};
ghost use Rattle.x_streams.specs.Counters.{raised};
ghost use Rattle.x_lex.specs.Places.{lexeme};
ghost use Rattle.x_trees.specs.Words.{words_of};
ghost use Rattle.x_trees.specs.Tree.{Definition as Tree};
ghost use Rattle.x_trees.specs.Spell.{spell, KeepsLimits, Begins};
ghost use Rattle.x_item.specs.Parse.{IsParse, IsLastWord, view_parsed};

use std::alloc::Global;
use x_lex::Token;
use x_parser::{FaultCode, ParseError, complete_definition, is_significant};
use x_text::{Meter, NoMemory};
use x_trees::Definition;

/// What an item is.
#[derive(Drop)]
pub enum Parsed {
    /// The item has no words.
    Nothing,
    /// The definition that its words spell.
    Def(Definition),
    /// Its words spell no definition.
    Fault {
        /// The index of the token in the item at which the fault stands.
        token: usize,
        /// What is wrong.
        code: FaultCode,
    },
}

/// What the tokens of one item are: a definition, nothing or a fault. Counts one parsed item.
pub fn parse_item(alloc: Global, tokens: &[Token], meter: &mut Meter) -> Result<Parsed, NoMemory>
    ensures parsed { IfOk result (λ parsed. IsParse (map lexeme tokens.now) (view_parsed parsed)) }
    ensures counted { meter.new ≡ record meter.old { parsed = raised meter.old.parsed 1 } }
{
    meter.tick_parsed();
    match complete_definition(alloc, tokens) {
        Ok(definition) => Ok(Parsed::Def(definition)),
        Err(ParseError::Stuck { left, code }) => Ok(Parsed::Fault {
            token: tokens.len() - left,
            code,
        }),
        Err(ParseError::AtEnd) => Ok(unfinished(tokens)),
        Err(ParseError::Memory) => Err(NoMemory),
    }
}

/// What an item is whose words are a prefix of a spelling: nothing, or a fault at the last of them.
fn unfinished(tokens: &[Token]) -> Parsed
    requires begins { Begins (words_of (map lexeme tokens.now)) }
    requires no_whole { (d : Tree) → KeepsLimits d → spell d ≢ words_of (map lexeme tokens.now) }
    ensures { IsParse (map lexeme tokens.now) (view_parsed result) }
{
    match last_word(tokens) {
        Some(token) => Parsed::Fault {
            token,
            code: FaultCode::Unfinished,
        },
        None => Parsed::Nothing,
    }
}

/// The index of the last token that is a word.
fn last_word(tokens: &[Token]) -> Option<usize>
    ensures some { IfSome result (λ at. IsLastWord (map lexeme tokens.now) at) }
    ensures none { IfNone result (words_of (map lexeme tokens.now) ≡ []) }
{
    for at in (0..tokens.len()).rev() {
        if is_significant(tokens[at].kind) {
            return Some(at);
        }
    }
    None
}
