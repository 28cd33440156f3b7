//! Which text of a document is asked for.

ghost use Rattle.std.specs.Prelude.{◌≡◌, option_map};
ghost use Rattle.serde_json.specs.View.{view};
ghost use Rattle.x_contents.specs.Wanting.{wanted_by, wanted_in};

use serde_json::Value;
use x_frames::member;
use x_session::Which;

/// What is asked for of a document.
#[derive(Clone, Copy, Debug, PartialEq, Eq)]
pub enum Wanted {
    /// A generated text.
    Generated(Which),
    /// What is wrong with it.
    Faults,
}

/// Which text of a document is asked for: `which` has the word of scripts.
pub(crate) fn which_in(params: Option<&Value>) -> Option<Wanted>
    ensures { result ≡ wanted_in (option_map (λ p. view p.now) params.entry) }
{
    wanted_by(member(params, "which")?.as_str()?)
}

/// What a word asks for.
fn wanted_by(word: &str) -> Option<Wanted>
    ensures { result ≡ wanted_by word.now }
{
    match word {
        "header" => Some(Wanted::Generated(Which::Header)),
        "routines" => Some(Wanted::Generated(Which::Routines)),
        "stubs" => Some(Wanted::Generated(Which::Stubs)),
        "table" => Some(Wanted::Generated(Which::Table)),
        "faults" => Some(Wanted::Faults),
        _ => None,
    }
}
