//! What the parameters of questions say.

ghost use Rattle.std.specs.Prelude.{◌≡◌, option_map};
ghost use Rattle.serde_json.specs.View.{view};
ghost use Rattle.x_questions.specs.Asking.{declared_in, new_name_in};

use serde_json::Value;
use x_frames::member;

/// Whether the places are asked for where a name is declared.
pub(crate) fn declared_in(params: Option<&Value>) -> Option<bool>
    ensures { result ≡ declared_in (option_map (λ p. view p.now) params.entry) }
{
    member(member(params, "context"), "includeDeclaration")?.as_bool()
}

/// The name that is to take the place of another.
pub(crate) fn new_name_in(params: Option<&Value>) -> Option<&str>
    ensures { option_map (λ n. n.now) result ≡ new_name_in (option_map (λ p. view p.now) params.entry) }
{
    member(params, "newName")?.as_str()
}
