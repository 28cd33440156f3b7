//! What is published of the names of a text that clash in C.

ghost use Rattle.std.specs.Prelude.{◌≡◌, ◌++◌, List, OnOk, map, option_map};
ghost use Rattle.std.specs.Option.{option_to_list};
ghost use Rattle.serde_json.specs.Data.{Data};
ghost use Rattle.x_session.specs.Session.{Compiles};
ghost use Rattle.x_positions.specs.Waymarks.{AreWaymarks};
ghost use Rattle.x_warnings.specs.Warnings.{view_warning};
ghost use Rattle.x_published.specs.Published.{data_of};
ghost use Rattle.x_published.specs.Warned.{AreWarned};
ghost use Rattle.x_documents.specs.Publishing.{AreWarnedOf, is_searched};

use std::alloc::Global;
use x_positions::Waymarks;
use x_published::{Client, Diagnostic, warned};
use x_session::Session;
use x_text::NoMemory;
use x_warnings::{Warning, warnings};

/// The greatest text in which names are looked for that clash in C, since they are looked for in all of it
/// with each change.
const MOST_WARNED: usize = 262_144;

/// Adds a warning for each name of a text that clashes in C: of a text without a fault that is not too
/// large, if the client wants that.
pub(crate) fn add_warnings<'d>(
    alloc: Global,
    client: Client,
    uri: &'d str,
    warns: bool,
    shown: &[u8],
    session: &Session,
    marks: &Waymarks,
    list: &mut Vec<Diagnostic<'d>>,
) -> Result<(), NoMemory>
    requires marked { AreWaymarks shown.now marks.now }
    requires encoding { marks.now.encoding ≡ client.encoding }
    ensures { OnOk result (Compiles session.now.known session.now.text (λ items. (ds : List Data)
        × AreWarnedOf client uri.now warns shown.now session.now.text items ds
        × (map data_of list.new.items ≡ map data_of list.old.items ++ ds))) }
{
    if !is_searched(warns, shown.len(), session.fault_count()) {
        return Ok(());
    }
    let found = warnings(alloc, session)?;
    let text = session.bytes();
    add_found(alloc, client, uri, shown, text, marks, &found, list)
}

/// Whether names that clash are looked for in a text of this size with so many faults.
fn is_searched(warns: bool, size: usize, faults: usize) -> bool
    ensures { result ≡ is_searched warns size faults }
{
    warns && size <= MOST_WARNED && faults == 0
}

/// Adds a warning for each of these names.
fn add_found<'d>(
    alloc: Global,
    client: Client,
    uri: &'d str,
    shown: &[u8],
    text: &[u8],
    marks: &Waymarks,
    found: &[Warning],
    list: &mut Vec<Diagnostic<'d>>,
) -> Result<(), NoMemory>
    requires marked { AreWaymarks shown.now marks.now }
    requires encoding { marks.now.encoding ≡ client.encoding }
    ensures { OnOk result ((ds : List Data)
        × AreWarned client uri.now shown.now text.now (map view_warning found.now) ds
        × (map data_of list.new.items ≡ map data_of list.old.items ++ ds)) }
{
    for warning in found {
        let diagnostic = warned(alloc, client, uri, shown, text, marks, warning)?;
        add_some(diagnostic, list)?;
    }
    Ok(())
}

/// Adds a diagnostic, if there is one.
pub(crate) fn add_some<'d>(
    diagnostic: Option<Diagnostic<'d>>,
    list: &mut Vec<Diagnostic<'d>>,
) -> Result<(), NoMemory>
    ensures { OnOk result (map data_of list.new.items
        ≡ map data_of list.old.items ++ option_to_list (option_map data_of diagnostic.entry)) }
{
    if let Some(diagnostic) = diagnostic {
        list.push(diagnostic)?;
    }
    Ok(())
}
