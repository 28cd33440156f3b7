//! The words of directives.
ghost use Rattle.std.specs.Prelude.{◌≡◌};
ghost use Rattle.x_directives.specs.Directives.{directive_word};
ghost use Rattle.x_directives.specs.Conditionals.{name_behind};
ghost use Rattle.x_directives.specs.Seen.{seen};

use crate::lines::{Line, behind_hash, unblanked, word, word_length};

/// The word behind the `#` of the directive that begins with the line.
#[tactic(auto, unfolding(crate::specs::Directives::directive_word))]
pub(crate) fn directive_word<'t>(line: &Line<'t>) -> &'t [u8]
    ensures { result.now ≡ directive_word (seen line.now) }
{
    if line.part.is_first() {
        word(behind_hash(line.bytes))
    } else {
        b""
    }
}

/// The word behind that of the directive, and blanks.
#[tactic(auto, unfolding(crate::specs::Conditionals::name_behind))]
pub(crate) fn name_behind<'t>(line: &Line<'t>) -> &'t [u8]
    ensures { result.now ≡ name_behind (seen line.now) }
{
    let rest = behind_hash(line.bytes);
    word(unblanked(&rest[word_length(rest)..]))
}
