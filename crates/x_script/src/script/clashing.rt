//! What a script is answered that asks for the names that clash in C.

ghost use Rattle.std.specs.Prelude.{◌≡◌, OnErr};
ghost use Rattle.x_prelude.specs.Followed.{IsOver};
ghost use Rattle.x_script.specs.Clashing.{IsClashAnswer};
ghost use Rattle.x_script.specs.Giving.{GivesBy};
ghost use Rattle.x_script.specs.Situations.{Over, situation};

use super::answer::add_counted;
use super::refusal::LineRefusal;
use super::{ScriptFile, renew};
use std::alloc::Global;
use x_prelude::FollowedText;
use x_text::{NoMemory, Pen, Sink};
use x_warnings::{add_warnings, warnings};

/// Answers the names of the text that clash in C, and answers whether that is refused, as it is where the
/// text has a fault. Without memory nothing is done.
pub(crate) fn answer_clashes<S: Sink>(
    alloc: Global,
    text: &mut FollowedText,
    file: &ScriptFile,
    pen: &mut Pen,
    sink: &mut S,
) -> Result<bool, NoMemory>
    requires { IsOver text.now }
    ensures over { IsOver text.new }
    ensures given { GivesBy (λ how here a. Over how here (λ known items. IsClashAnswer how here items a))
        (situation file.now text.old) (situation file.now text.new) result
        pen.old (S.state sink.old) pen.new (S.state sink.new) }
    ensures same { OnErr result ((pen.new ≡ pen.old) × (sink.new ≡ sink.old)) }
{
    renew(text)?;
    if text.session.fault_count() > 0 {
        LineRefusal::Faulty.add_line(pen, sink);
        return Ok(true);
    }
    let found = warnings(alloc, &text.session)?;
    add_counted("clashes", found.len(), pen, sink);
    add_warnings(file.name, &found, pen, sink);
    Ok(false)
}
