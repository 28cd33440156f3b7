//! What a script is answered that asks to explain the faults.

ghost use Rattle.std.specs.Prelude.{◌≡◌, OnErr};
ghost use Rattle.x_prelude.specs.Followed.{IsOver};
ghost use Rattle.x_script.specs.Explaining.{IsExplainAnswer};
ghost use Rattle.x_script.specs.Giving.{GivesBy};
ghost use Rattle.x_script.specs.Situations.{Over, situation};

use super::answer::add_counted;
use super::{ScriptFile, renew};
use std::alloc::Global;
use x_explain::{FaultFacts, add_explained_faults};
use x_prelude::FollowedText;
use x_text::{NoMemory, Pen, Sink};

/// Answers the faults of the text, explained, and answers that this refuses nothing. Without memory nothing
/// is done.
pub(crate) fn answer_explained<S: Sink>(
    alloc: Global,
    text: &mut FollowedText,
    file: &ScriptFile,
    pen: &mut Pen,
    sink: &mut S,
) -> Result<bool, NoMemory>
    requires { IsOver text.now }
    ensures over { IsOver text.new }
    ensures given { GivesBy (λ how here a. Over how here (λ known items. IsExplainAnswer how here items a))
        (situation file.now text.old) (situation file.now text.new) result
        pen.old (S.state sink.old) pen.new (S.state sink.new) }
    ensures same { OnErr result ((pen.new ≡ pen.old) × (sink.new ≡ sink.old)) }
{
    renew(text)?;
    let foreign = text.foreign_names()?;
    let facts = FaultFacts::of(alloc, &text.session, file.known, foreign)?;
    add_counted("explained", text.session.fault_count(), pen, sink);
    add_explained_faults(false, file.name, &text.session, &facts, pen, sink);
    Ok(false)
}
