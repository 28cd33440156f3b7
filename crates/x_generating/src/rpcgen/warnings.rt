//! The names of a text that clash in C, as `rpcgen` tells them.

ghost use Rattle.std.specs.Prelude.{◌≡◌, ◌≢◌, [], codes, map, IfOk, IsTrue};
ghost use Rattle.x_session.specs.Session.{Compiles};
ghost use Rattle.x_args.specs.Telling.{IsTold, told_of};
ghost use Rattle.x_warnings.specs.Warnings.{view_warning};
ghost use Rattle.x_generating.specs.Warnings.{AreTold, IsGood, TellsClashes, TellsThem, are_faults};
ghost use Rattle.x_generating.specs.Warnings.{tells_clashes};

use std::alloc::Global;
use x_args::{Status, tell_of_file};
use x_opening::{FaultStyle, Opening};
use x_session::Session;
use x_text::{NoMemory, Pen, Sink};
use x_warnings::{Warning, add_warnings, warnings};

/// Whether clashes are told: where faults are explained, or where they count as faults.
fn tells_clashes(strict: bool, style: FaultStyle) -> bool
    ensures { result ≡ tells_clashes strict style }
{
    match style {
        FaultStyle::Plain => strict,
        FaultStyle::Explained | FaultStyle::Coloured => true,
    }
}

/// The names of a text without faults that clash in C and are told.
pub(super) fn told_warnings<'s>(
    alloc: Global,
    how: &Opening,
    strict: bool,
    session: &'s Session,
) -> Result<Vec<Warning<'s>>, NoMemory>
    ensures { IfOk result (λ list. Compiles session.now.known session.now.text (λ items.
        AreTold strict how.now.style session.now.text items (map view_warning list.items))) }
{
    if tells_clashes(strict, how.style) {
        return warnings(alloc, session);
    }
    // A text has one compilation, whatever is said of it.
    let _ = session.item_count();
    Ok(Vec::new(alloc))
}

/// Whether these make that nothing is written.
pub(super) fn are_faults(strict: bool, list: &[Warning]) -> bool
    ensures { result ≡ are_faults strict (map view_warning list.now) }
{
    strict && !list.is_empty()
}

/// Tells these, if there are any.
pub(super) fn say<E: Sink>(file: &str, list: &[Warning], err: &mut E)
    ensures said { TellsThem file.now (map view_warning list.now) (E.state err.old) (E.state err.new) }
    ensures quiet { list.now ≡ [] → err.new ≡ err.old }
{
    if list.is_empty() {
        return;
    }
    let mut pen = Pen::new();
    add_warnings(file, list, &mut pen, err);
    let _ = pen.finish(err);
}

/// Tells the names of a text without faults that clash in C, and answers the status: `Faulty` where there are
/// some and they count as faults, and `Failed` where memory runs out, which it tells.
pub(super) fn warn<E: Sink>(
    alloc: Global,
    how: &Opening,
    strict: bool,
    file: &str,
    session: &Session,
    err: &mut E,
) -> Status
    ensures good { result ≡ Status.Done → Compiles session.now.known session.now.text (λ items.
        IsGood strict how.now.style file.now session.now.text items (E.state err.old) (E.state err.new)) }
    ensures faulty { result ≡ Status.Faulty → IsTrue strict × Compiles session.now.known session.now.text
        (λ items. TellsClashes file.now session.now.text items (E.state err.old) (E.state err.new)) }
    ensures failed { result ≡ Status.Failed
        → IsTold (E.state err.old) (E.state err.new) (told_of (codes "rpcgen") (codes "out of memory")) }
{
    match told_warnings(alloc, how, strict, session) {
        Ok(list) => {
            say(file, &list, err);
            if are_faults(strict, &list) {
                Status::Faulty
            } else {
                Status::Done
            }
        }
        Err(NoMemory) => {
            tell_of_file("rpcgen", "out of memory", "\n", err);
            Status::Failed
        }
    }
}
