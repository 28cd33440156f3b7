//! What a client says that it does to a text.

ghost use Rattle.std.specs.Prelude.{◌≡◌, option_and_then, option_map};
ghost use Rattle.serde_json.specs.Find.{get};
ghost use Rattle.serde_json.specs.View.{view};
ghost use Rattle.x_frames.specs.Params.{natural_in, position_in, range_if, range_in, replacement_in};
ghost use Rattle.x_frames.specs.Params.{replacement_of};

use serde_json::Value;
use x_positions::{Position, Range};

/// A change of a text: another text takes the place of a range, or of all.
#[derive(Clone, Copy, Debug)]
pub struct TextChange<'m> {
    /// The range; all where there is none.
    pub range: Option<Range>,
    /// The text that takes its place.
    pub text: &'m str,
}

/// The change that a client describes, if it does.
pub(crate) fn text_change(change: &Value) -> Option<TextChange<'_>>
    ensures { option_map replacement_of result ≡ replacement_in (view change.now) }
{
    let range = range_if(change.get("range"))?;
    let text = change.get("text")?.as_str()?;
    Some(TextChange { range, text })
}

/// The range that is described, if any is, where it is understood. Null describes none.
fn range_if(range: Option<&Value>) -> Option<Option<Range>>
    ensures { result ≡ range_if (option_map (λ r. view r.now) range.entry) }
{
    match range {
        None | Some(Value::Null) => Some(None),
        Some(range) => Some(Some(range_in(range)?)),
    }
}

/// The range that a client describes, if it does.
fn range_in(range: &Value) -> Option<Range>
    ensures { result ≡ range_in (view range.now) }
{
    let start = position_at(range, "start")?;
    let end = position_at(range, "end")?;
    Some(Range { start, end })
}

/// The position that a member describes, if it does.
fn position_at(range: &Value, name: &str) -> Option<Position>
    ensures { result ≡ option_and_then position_in (get name.now (view range.now)) }
{
    position_in(range.get(name)?)
}

/// The position that a client describes, if it does.
pub(crate) fn position_in(position: &Value) -> Option<Position>
    ensures { result ≡ position_in (view position.now) }
{
    let line = natural_in(position, "line")?;
    let character = natural_in(position, "character")?;
    Some(Position { line, character })
}

/// The natural number that a member is, if it is one.
fn natural_in(position: &Value, name: &str) -> Option<usize>
    ensures { result ≡ natural_in name.now (view position.now) }
{
    Some(position.get(name)?.as_u64()? as usize)
}
