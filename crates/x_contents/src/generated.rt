//! What is told of a document as a text: what is generated of it, or its faults.

ghost use Rattle.std.specs.Prelude.{◌≡◌, IfOk};
ghost use Rattle.std.specs.List.{flat_map};
ghost use Rattle.std.specs.Str.Lossy.{utf8_lossy};
ghost use Rattle.serde_json.specs.Data.{string};
ghost use Rattle.serde_json.specs.Written.{compact_text};
ghost use Rattle.x_streams.specs.Writing.{Adds};
ghost use Rattle.x_compile.specs.Compile.{faults_of};
ghost use Rattle.x_compile.specs.Generated.{text_of};
ghost use Rattle.x_session.specs.FaultLines.{fault_line};
ghost use Rattle.x_session.specs.Session.{Compiles};
ghost use Rattle.x_contents.specs.DocumentTexts.{told_text};

use crate::string_text::string_text;
use crate::wanted::Wanted;
use std::alloc::Global;
use x_lookups::TextSink;
use x_session::{Fault, Session, Which, add_place};
use x_text::{NoMemory, Pen, Sink};

/// A generated text of a document, or its faults, one a line, as a string of JSON. What is no UTF-8 is
/// replaced, as that needs it.
pub(crate) fn text(alloc: Global, session: &Session, wanted: Wanted) -> Result<Vec<u8>, NoMemory>
    ensures { IfOk result (λ text. Compiles session.now.known session.now.text
        (λ items. text.items ≡ compact_text
        (string (utf8_lossy (told_text wanted session.now.base session.now.text items))))) }
{
    let bytes = told_text(alloc, session, wanted)?;
    string_text(alloc, &bytes)
}

/// What is told of a text.
fn told_text(alloc: Global, session: &Session, wanted: Wanted) -> Result<Vec<u8>, NoMemory>
    ensures { IfOk result (λ told. Compiles session.now.known session.now.text
        (λ items. told.items ≡ told_text wanted session.now.base session.now.text items)) }
{
    match wanted {
        Wanted::Generated(which) => generated_text(alloc, session, which),
        Wanted::Faults => fault_lines(alloc, session),
    }
}

/// A generated text.
fn generated_text(alloc: Global, session: &Session, which: Which) -> Result<Vec<u8>, NoMemory>
    ensures { IfOk result (λ told. Compiles session.now.known session.now.text
        (λ items. told.items ≡ text_of which session.now.base items)) }
{
    let mut sink = TextSink::new(alloc);
    match session.write_text(which, &mut sink) {
        Ok(()) => Ok(sink.into_bytes()),
        Err(_) => Err(NoMemory),
    }
}

/// The faults of a text, one a line.
fn fault_lines(alloc: Global, session: &Session) -> Result<Vec<u8>, NoMemory>
    ensures { IfOk result (λ told. Compiles session.now.known session.now.text
        (λ items. told.items ≡ flat_map fault_line (faults_of session.now.text items))) }
{
    let mut pen = Pen::new();
    let mut sink = TextSink::new(alloc);
    add_faults(session, &mut pen, &mut sink);
    match pen.finish(&mut sink) {
        Ok(()) => Ok(sink.into_bytes()),
        Err(_) => Err(NoMemory),
    }
}

/// Adds the lines of faults.
fn add_faults<S: Sink>(session: &Session, pen: &mut Pen, sink: &mut S)
    ensures { Compiles session.now.known session.now.text
        (λ items. Adds pen.old (S.state sink.old) pen.new (S.state sink.new)
        (flat_map fault_line (faults_of session.now.text items))) }
{
    for fault in session.faults() {
        add_fault(&fault, pen, sink);
    }
}

/// Adds the line of a fault: its place, its number and its name.
#[tactic(auto, using(x_text::proofs::Adding::four))]
fn add_fault<S: Sink>(fault: &Fault, pen: &mut Pen, sink: &mut S)
    ensures { Adds pen.old (S.state sink.old) pen.new (S.state sink.new) (fault_line fault.now) }
{
    add_place(fault, pen, sink);
    pen.add(b" ", sink);
    pen.add(fault.code.text().as_bytes(), sink);
    pen.add(b"\n", sink);
}
