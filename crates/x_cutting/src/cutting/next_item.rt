//! The items of a text, one after another.
ghost use Rattle.std.specs.Prelude.{◌≡◌, IfOk, map};
ghost use Rattle.x_lex.specs.Places.{lexeme};
ghost use Rattle.x_cutting.specs.Items.{IsNext};

use super::cutter::Cutter;
use x_lex::{Token, TokenIter};
use x_text::NoMemory;

/// Takes the next item of the tokens that a walk has left into the buffer, and answers whether it ends with
/// its own `;`: one that does not is the last, even if it is empty. After [`NoMemory`] the walk is somewhere
/// within the item.
pub fn next_item<'a>(
    tokens: &mut Vec<Token<'a>>,
    walk: &mut TokenIter<'a>,
) -> Result<bool, NoMemory>
    ensures { IfOk result (λ whole. IsNext whole walk.old (map lexeme tokens.new.items) walk.new) }
{
    tokens.clear();
    let mut cutter = Cutter::new();
    while let Some(token) = walk.next() {
        tokens.push(token)?;
        if cutter.ends(token.kind, token.text) {
            return Ok(true);
        }
    }
    Ok(false)
}
