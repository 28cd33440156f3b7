//! What a client does to a text.

ghost use Rattle.std.specs.Prelude.{◌≡◌, ◌↔◌, IfOk, OnErr, OnOk};
ghost use Rattle.x_text.specs.Edits.{change_of, edited_by, Judges, LiesWithin};
ghost use Rattle.x_frames.specs.Params.{replacement_of};
ghost use Rattle.x_documents.specs.Changes.{change_by};
ghost use Rattle.x_positions.specs.Waymarks.{AreWaymarks};

use std::alloc::Global;
use x_directives::edit_between;
use x_frames::TextChange;
use x_positions::Waymarks;
use x_session::EditFault;
use x_text::{Edit, Source};

/// Carries a change of a text out, by waymarks of it, which follow the change, and answers the edit that it
/// is. After a fault the text is as before.
pub fn apply_change<'c>(
    alloc: Global,
    text: &mut Source,
    marks: &mut Waymarks,
    change: &TextChange<'c>,
) -> Result<Edit<'c>, EditFault>
    requires { AreWaymarks text.old marks.old }
    ensures text { OnOk result
        (text.new ≡ edited_by (change_by marks.old.encoding text.old (replacement_of change.now))) }
    ensures fault { Judges (change_by marks.old.encoding text.old (replacement_of change.now)) result }
    ensures same { OnErr result (text.new ≡ text.old) }
    ensures marks { AreWaymarks text.new marks.new }
    ensures encoding { marks.new.encoding ≡ marks.old.encoding }
    ensures makes { IfOk result (λ edit. edited_by (change_of text.old edit) ≡ text.new) }
    ensures within { IfOk result (λ edit. LiesWithin (change_of text.old edit)) }
{
    let edit = edit_of(marks, text.bytes(), change);
    text.replace(&edit)?;
    marks.follow(alloc, text.bytes(), &edit);
    Ok(edit)
}

/// The edit that a change of a text is. What is sent whole changes what lies between the longest front and
/// the longest rear that it has in common with the text.
fn edit_of<'c>(marks: &Waymarks, text: &[u8], change: &TextChange<'c>) -> Edit<'c>
    requires { AreWaymarks text.now marks.now }
    ensures makes { edited_by (change_of text.now result)
        ≡ edited_by (change_by marks.now.encoding text.now (replacement_of change.now)) }
    ensures within { LiesWithin (change_of text.now result)
        ↔ LiesWithin (change_by marks.now.encoding text.now (replacement_of change.now)) }
{
    match &change.range {
        None => edit_between(text, change.text.as_bytes()),
        Some(range) => Edit {
            start: marks.offset(text, range.start),
            end: marks.offset(text, range.end),
            insert: change.text.as_bytes(),
        },
    }
}
