//! The lines of an item that pass through.

ghost use Rattle.std.specs.Prelude.{◌≡◌, drop, map, IfOk};
ghost use Rattle.x_lex.specs.Places.{lexeme};
ghost use Rattle.x_compile.specs.Generated.{lines_of};

use std::alloc::Global;
use x_lex::{Kind, Token};
use x_text::NoMemory;

/// The lines of an item that pass through: without their `%`, each with a line feed.
pub fn lines_of(alloc: Global, tokens: &[Token]) -> Result<Vec<u8>, NoMemory>
    ensures { IfOk result (λ lines. lines.items ≡ lines_of (map lexeme tokens.now)) }
{
    let mut lines = Vec::new(alloc);
    for token in tokens {
        if token.kind == Kind::Percent {
            lines.extend_from_slice(behind_first(token.text))?;
            lines.push(b'\n')?;
        }
    }
    Ok(lines)
}

/// The bytes behind the first.
fn behind_first(bytes: &[u8]) -> &[u8]
    ensures { result.now ≡ drop 1 bytes.now }
{
    match bytes {
        [_, rest @ ..] => rest,
        [] => bytes,
    }
}
