//! What is published of a text's faults.

ghost use Rattle.std.specs.List.{before_first};
ghost use Rattle.std.specs.Prelude.{◌≡◌, ◌==◌, ◌≤◌, ◌++◌, ℕ, List, IfOk, codes};
ghost use Rattle.std.specs.Prelude.{length, string_bytes, map, OnOk};
ghost use Rattle.serde_json.specs.Data.{Data};
ghost use Rattle.serde_json.specs.View.{view};
ghost use Rattle.serde_json.specs.Written.{compact_text};
ghost use Rattle.x_lex.specs.declared.kind.Kind.{Kind};
ghost use Rattle.x_compile.specs.Compile.{IsCompilation, Item};
ghost use Rattle.x_compile.specs.Faults.{fault_text};
ghost use Rattle.x_compile.specs.declared.fault.FaultPlace.{FaultPlace};
ghost use Rattle.x_session.specs.Session.{Compiles};
ghost use Rattle.x_explain.specs.Found.{AreFound, IsEndOfToken};
ghost use Rattle.x_session.specs.Foreign.{view_all};
ghost use Rattle.x_directives.specs.Conditionals.{conditionals};
ghost use Rattle.x_published.specs.Diagnostics.{AreDiagnostics, AreForeignHints, IsDiagnostic, closing_data};
ghost use Rattle.x_published.specs.Diagnostics.{diagnostic_data, fault_number, hint_data};
ghost use Rattle.x_published.specs.Published.{data_of};
ghost use Rattle.x_documents.specs.Publishing.{AreShown, IsPublishedOf};
ghost use Rattle.x_documents.specs.Telling.{AreOfSame, AreOthersFor, IsMarkerFor, place_of_found};
ghost use Rattle.x_told.specs.Telling.{told_of};
ghost use Rattle.x_positions.specs.Waymarks.{AreWaymarks};

use crate::warned_names::{add_some, add_warnings};
use serde_json::json;
use std::alloc::{AllocError, Global};
use x_directives::conditionals;
use x_explain::{FoundFault, token_end};
use x_frames::note;
use x_positions::{Marker, Waymarks};
use x_published::{
    Client, Diagnostic, FaultMessages, Message, OtherPlaces, Severity, branch_message,
    foreign_message, place_of, published_text, severity_of, unshown,
};
use x_session::{ForeignName, Session};
use x_text::NoMemory;
use x_told::{chosen_faults, word_at};

/// How many faults of a document are told, and what beside them.
#[derive(Clone, Copy, Debug)]
pub struct Hints<'n> {
    /// Whether lines of cpp may be blanked: then those are told that begin branches, and in later branches
    /// no fault that a name is declared twice, nor what follows from such faults alone.
    pub blanks: bool,
    /// The names that the text takes from C.
    pub foreign: &'n [ForeignName<'n>],
    /// Whether names are told that clash in C.
    pub warns: bool,
    /// How many faults are told at most.
    pub most: usize,
}

/// The note that publishes the faults of a document, or the first of them and how many more there are: of
/// what is compiled of its text, which is shown, by waymarks of that and by the messages of those that were
/// published before; hints; and the names that clash in C. Keeps these faults among the waymarks, and their
/// messages.
pub fn publish(
    alloc: Global,
    client: Client,
    uri: &str,
    version: i64,
    hints: &Hints,
    shown: &[u8],
    session: &Session,
    marks: &mut Waymarks,
    messages: &mut FaultMessages,
) -> Result<Vec<u8>, NoMemory>
    requires marks { AreWaymarks shown.now marks.old }
    requires encoding { marks.old.encoding ≡ client.encoding }
    ensures said { IfOk result (λ said. Compiles session.now.known session.now.text (λ items.
        IsPublishedOf client uri.now version hints.now.blanks hints.now.warns hints.now.most
        (view_all hints.now.foreign.now) shown.now session.now.text items said.items)) }
    ensures marks { AreWaymarks shown.now marks.new }
    ensures encoding { marks.new.encoding ≡ marks.old.encoding }
{
    let mut marker = Marker::at_start(alloc, marks.encoding, shown);
    let mut list = diagnostics(
        alloc,
        client,
        uri,
        hints,
        shown,
        session,
        marks,
        &mut marker,
        messages,
    )?;
    if hints.blanks {
        add_hints(alloc, shown, marks, &mut list)?;
    }
    add_foreign_hints(
        alloc,
        shown,
        session.bytes(),
        marks,
        hints.foreign,
        &mut list,
    )?;
    add_warnings(
        alloc,
        client,
        uri,
        hints.warns,
        shown,
        session,
        marks,
        &mut list,
    )?;
    let (said, list) = published_text(alloc, uri, version, list)?;
    messages.keep(list);
    marks.keep_faults(marker.list);
    Ok(said)
}

/// Adds a hint for each directive of cpp that begins a branch.
fn add_hints(
    alloc: Global,
    shown: &[u8],
    marks: &Waymarks,
    list: &mut Vec<Diagnostic>,
) -> Result<(), NoMemory>
    requires { AreWaymarks shown.now marks.now }
    ensures { OnOk result (map data_of list.new.items ≡ map data_of list.old.items
        ++ map (hint_data marks.now.encoding shown.now) (conditionals shown.now)) }
{
    for place in &conditionals(alloc, shown)? {
        list.push(Diagnostic {
            severity: Severity::Hint,
            message: Message::OfFault(branch_message(alloc)?),
            range: marks.range(shown, place.start, place.end),
            related: None,
        })?;
    }
    Ok(())
}

/// Adds a hint for each name that the text takes from C, at its first use.
fn add_foreign_hints(
    alloc: Global,
    shown: &[u8],
    text: &[u8],
    marks: &Waymarks,
    names: &[ForeignName],
    list: &mut Vec<Diagnostic>,
) -> Result<(), NoMemory>
    requires { AreWaymarks shown.now marks.now }
    ensures { OnOk result ((hints : List Data)
        × AreForeignHints marks.now.encoding shown.now text.now (view_all names.now) hints
        × (map data_of list.new.items ≡ map data_of list.old.items ++ hints)) }
{
    for name in names {
        let start = name.spot.start;
        list.push(Diagnostic {
            severity: Severity::Hint,
            message: Message::OfFault(foreign_message(alloc, name.name)?),
            range: marks.range(shown, start, token_end(text, start)),
            related: None,
        })?;
    }
    Ok(())
}

/// The note that publishes that nothing is wrong with a document which was closed.
pub(crate) fn closing_note(alloc: Global, uri: &str) -> Result<Vec<u8>, AllocError>
    ensures { IfOk result (λ said. said.items ≡ compact_text (closing_data uri.now)) }
{
    let params = json!(in alloc; {"diagnostics": [], "uri": uri})?;
    note(alloc, "textDocument/publishDiagnostics", params)
}

/// The diagnostics of what is compiled of a text: of the faults that are shown, whose places are marked, and
/// of how many are not.
fn diagnostics<'d>(
    alloc: Global,
    client: Client,
    uri: &'d str,
    hints: &Hints,
    shown: &[u8],
    session: &Session,
    marks: &Waymarks,
    marker: &mut Marker,
    messages: &mut FaultMessages,
) -> Result<Vec<Diagnostic<'d>>, NoMemory>
    requires marks { AreWaymarks shown.now marks.now }
    requires encoding { marks.now.encoding ≡ client.encoding }
    requires marker_text { marker.old.text.now ≡ shown.now }
    requires marker_encoding { marker.old.encoding ≡ client.encoding }
    ensures text { marker.new.text.now ≡ shown.now }
    ensures counted { marker.new.encoding ≡ client.encoding }
    ensures diagnostics { IfOk result (λ list. Compiles session.now.known session.now.text (λ items.
        AreShown client uri.now hints.now.most shown.now session.now.text items
        (told_of hints.now.blanks shown.now items) (map data_of list.items))) }
{
    let found = chosen_faults(alloc, hints.most, hints.blanks, shown, session)?;
    let mut others = OtherPlaces::of(client.shows_related, shown, marks, session);
    let mut list = diagnostics_of(
        alloc,
        client,
        uri,
        &found.list,
        &mut others,
        marker,
        messages,
    )?;
    add_some(unshown(alloc, found.left)?, &mut list)?;
    Ok(list)
}

/// The diagnostics of faults that stand in a text, whose places are marked.
fn diagnostics_of<'d>(
    alloc: Global,
    client: Client,
    uri: &'d str,
    faults: &[FoundFault],
    others: &mut OtherPlaces,
    marker: &mut Marker,
    messages: &mut FaultMessages,
) -> Result<Vec<Diagnostic<'d>>, NoMemory>
    requires others { AreOthersFor client others.old }
    requires marker { IsMarkerFor client others.old.text.now marker.old }
    requires found { (places : List FaultPlace)
        × AreFound others.old.session.now.text places faults.now }
    ensures marker { IsMarkerFor client others.old.text.now marker.new }
    ensures diagnostics { IfOk result (λ list.
        (places : List FaultPlace) (tokens : List (Kind × ℕ)) (items : List Item)
        → AreFound others.old.session.now.text places faults.now
        → IsCompilation others.old.session.now.known others.old.session.now.text tokens items
        → AreDiagnostics client uri.now others.old.text.now others.old.session.now.text items places
        (map data_of list.items)) }
{
    let mut list = Vec::with_capacity(alloc, faults.len())?;
    for fault in faults {
        let diagnostic = diagnostic(alloc, client, uri, fault, others, marker, messages)?;
        list.push(diagnostic)?;
    }
    Ok(list)
}

/// The diagnostic of a fault that stands in a text, whose place is marked.
fn diagnostic<'d>(
    alloc: Global,
    client: Client,
    uri: &'d str,
    fault: &FoundFault,
    others: &mut OtherPlaces,
    marker: &mut Marker,
    messages: &mut FaultMessages,
) -> Result<Diagnostic<'d>, NoMemory>
    requires others { AreOthersFor client others.old }
    requires marker { IsMarkerFor client others.old.text.now marker.old }
    requires end { IsEndOfToken others.old.session.now.text fault.now.start fault.now.end }
    ensures others { AreOthersFor client others.new }
    ensures same { AreOfSame others.old others.new }
    ensures marker { IsMarkerFor client others.old.text.now marker.new }
    ensures diagnostic { IfOk result (λ diagnostic. (tokens : List (Kind × ℕ)) (items : List Item)
        → IsCompilation others.old.session.now.known others.old.session.now.text tokens items
        → IsDiagnostic client uri.now others.old.text.now others.old.session.now.text items
        (place_of_found fault.now) (data_of diagnostic)) }
{
    let code = fault.code;
    let start = fault.start;
    let range = others.marks.range(others.text, start, fault.end);
    marker.mark_place(start, range.start)?;
    let session = others.session;
    let word = word_at(session.bytes(), start, fault.end);
    let other = others.range(alloc, code, word, start)?;
    others.make(alloc, code)?;
    let message = messages.next(alloc, code, &others.known(code, start, word))?;
    Ok(Diagnostic {
        severity: severity_of(code),
        message: Message::OfFault(message),
        range,
        related: place_of(uri, other, "first declared here"),
    })
}
