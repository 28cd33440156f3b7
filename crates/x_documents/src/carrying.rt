//! How changes of a document's text are carried out, and what is compiled follows them.

ghost use Rattle.std.specs.Prelude.{◌≡◌, ◌⊎◌, ◌∷◌, [], false, true, IfErr, IfOk, OnOk, Ok, map};
ghost use Rattle.x_text.specs.Edits.{edited_by, FitsText, Refuses};
ghost use Rattle.x_prelude.specs.Followed.{IsOver};
ghost use Rattle.x_frames.specs.Params.{replacement_of};
ghost use Rattle.x_documents.specs.Changes.{change_by, changed_by_all};
ghost use Rattle.x_documents.specs.Compiled.{IsAsItStands, IsCompiled, Stands};
ghost use Rattle.x_documents.specs.Grounds.{ground_with};
ghost use Rattle.x_documents.specs.Noting.{Fit, IsNotCompiled, IsStopped};
ghost use Rattle.x_positions.specs.Waymarks.{AreWaymarks};

use crate::changes::apply_change;
use crate::compiled::{follow_edit, follow_text, stands};
use std::alloc::Global;
use x_frames::TextChange;
use x_positions::Waymarks;
use x_prelude::FollowedText;
use x_session::EditFault;
use x_text::Source;

/// How many bytes a change may put in that is carried out in what is compiled as the client sends it. For a
/// longer one both texts are compared, since it may put back most of what it takes out.
const MOST_PUT_IN: usize = 4096;

/// Carries changes of a text out, one after another, up to the first that is refused, and compiles what they
/// leave. Answers whether it is known that this is compiled as it stands, as it is known of the text or not.
pub(crate) fn carry_out(
    alloc: Global,
    shown: &mut Source,
    marks: &mut Waymarks,
    compiled: &mut FollowedText,
    files: &[u8],
    blanks: bool,
    stood: bool,
    changes: &[TextChange],
) -> Result<bool, EditFault>
    requires marks { AreWaymarks shown.old marks.old }
    requires over { ∥ IsOver compiled.old ∥₁ }
    requires stood { stood ≡ true → IsAsItStands files.now blanks shown.old compiled.old }
    ensures text { OnOk result
        (shown.new ≡ changed_by_all marks.old.encoding shown.old (map replacement_of changes.now)) }
    ensures fit { OnOk result (Fit marks.old.encoding shown.old (map replacement_of changes.now)) }
    ensures followed { OnOk result (IsCompiled files.now blanks shown.new compiled.new) }
    ensures stands { IfOk result (λ stands. stands ≡ true → Stands blanks shown.new) }
    ensures fault { IfErr result (λ fault.
        IsStopped marks.old.encoding shown.old fault (map replacement_of changes.now)
        ⊎ IsNotCompiled (ground_with files.now compiled.old.from_c blanks false 0)
        (changed_by_all marks.old.encoding shown.old (map replacement_of changes.now)) fault) }
    ensures over { ∥ IsOver compiled.new ∥₁ }
    ensures from_c { compiled.new.from_c ≡ compiled.old.from_c }
    ensures base { compiled.new.session.base ≡ compiled.old.session.base }
    ensures marks { AreWaymarks shown.new marks.new }
    ensures encoding { marks.new.encoding ≡ marks.old.encoding }
{
    match changes {
        [change] if is_one_edit(stood, change) => {
            carry_out_one(alloc, shown, marks, compiled, files, blanks, change)
        }
        _ => carry_out_all(alloc, shown, marks, compiled, files, blanks, changes),
    }
}

/// Whether a change of a text that stands may be carried out as the same edit in what is compiled.
fn is_one_edit(stood: bool, change: &TextChange) -> bool
    ensures { result ≡ true → stood ≡ true }
{
    stood && change.text.len() <= MOST_PUT_IN
}

/// Carries out a change of a text that is compiled as it stands, and the same edit in what is compiled, where
/// it is known that the text stands so still. Answers whether it is.
fn carry_out_one(
    alloc: Global,
    shown: &mut Source,
    marks: &mut Waymarks,
    compiled: &mut FollowedText,
    files: &[u8],
    blanks: bool,
    change: &TextChange,
) -> Result<bool, EditFault>
    requires marks { AreWaymarks shown.old marks.old }
    requires over { ∥ IsOver compiled.old ∥₁ }
    requires stood { IsAsItStands files.now blanks shown.old compiled.old }
    ensures text { OnOk result
        (shown.new ≡ edited_by (change_by marks.old.encoding shown.old (replacement_of change.now))) }
    ensures fit { OnOk result
        (FitsText (change_by marks.old.encoding shown.old (replacement_of change.now))) }
    ensures followed { OnOk result (IsCompiled files.now blanks shown.new compiled.new) }
    ensures stands { IfOk result (λ stands. stands ≡ true → Stands blanks shown.new) }
    ensures fault { IfErr result (λ fault.
        Refuses (change_by marks.old.encoding shown.old (replacement_of change.now)) fault
        ⊎ IsNotCompiled (ground_with files.now compiled.old.from_c blanks false 0)
        (edited_by (change_by marks.old.encoding shown.old (replacement_of change.now))) fault) }
    ensures over { ∥ IsOver compiled.new ∥₁ }
    ensures from_c { compiled.new.from_c ≡ compiled.old.from_c }
    ensures base { compiled.new.session.base ≡ compiled.old.session.base }
    ensures marks { AreWaymarks shown.new marks.new }
    ensures encoding { marks.new.encoding ≡ marks.old.encoding }
{
    let edit = apply_change(alloc, shown, marks, change)?;
    if stands(blanks, edit.insert, shown.bytes()) {
        follow_edit(compiled, &edit)?;
        return Ok(true);
    }
    follow_text(alloc, compiled, files, blanks, false, shown.bytes())?;
    Ok(false)
}

/// Carries changes of a text out, and compiles what they leave, also where one is refused. Answers whether it
/// is known that this is compiled as it stands.
fn carry_out_all(
    alloc: Global,
    shown: &mut Source,
    marks: &mut Waymarks,
    compiled: &mut FollowedText,
    files: &[u8],
    blanks: bool,
    changes: &[TextChange],
) -> Result<bool, EditFault>
    requires marks { AreWaymarks shown.old marks.old }
    requires over { ∥ IsOver compiled.old ∥₁ }
    ensures text { OnOk result
        (shown.new ≡ changed_by_all marks.old.encoding shown.old (map replacement_of changes.now)) }
    ensures fit { OnOk result (Fit marks.old.encoding shown.old (map replacement_of changes.now)) }
    ensures followed { OnOk result (IsCompiled files.now blanks shown.new compiled.new) }
    ensures stands { IfOk result (λ stands. stands ≡ true → Stands blanks shown.new) }
    ensures fault { IfErr result (λ fault.
        IsStopped marks.old.encoding shown.old fault (map replacement_of changes.now)
        ⊎ IsNotCompiled (ground_with files.now compiled.old.from_c blanks false 0)
        (changed_by_all marks.old.encoding shown.old (map replacement_of changes.now)) fault) }
    ensures over { ∥ IsOver compiled.new ∥₁ }
    ensures from_c { compiled.new.from_c ≡ compiled.old.from_c }
    ensures base { compiled.new.session.base ≡ compiled.old.session.base }
    ensures marks { AreWaymarks shown.new marks.new }
    ensures encoding { marks.new.encoding ≡ marks.old.encoding }
{
    let changed = apply_changes(alloc, shown, marks, changes);
    let stands = stands(blanks, shown.bytes(), shown.bytes());
    let followed = follow_text(alloc, compiled, files, blanks, stands, shown.bytes());
    changed?;
    followed?;
    Ok(stands)
}

/// Carries changes of a text out, one after another, up to the first that is refused.
fn apply_changes(
    alloc: Global,
    text: &mut Source,
    marks: &mut Waymarks,
    changes: &[TextChange],
) -> Result<(), EditFault>
    requires { AreWaymarks text.old marks.old }
    ensures text { OnOk result
        (text.new ≡ changed_by_all marks.old.encoding text.old (map replacement_of changes.now)) }
    ensures fit { OnOk result (Fit marks.old.encoding text.old (map replacement_of changes.now)) }
    ensures fault { IfErr result
        (λ fault. IsStopped marks.old.encoding text.old fault (map replacement_of changes.now)) }
    ensures marks { AreWaymarks text.new marks.new }
    ensures encoding { marks.new.encoding ≡ marks.old.encoding }
{
    for change in changes {
        apply_change(alloc, text, marks, change)?;
    }
    Ok(())
}
