//! What is published of a text's faults, as it is written.

ghost use Rattle.std.specs.Prelude.{◌≡◌, IfOk, OnOk, map, option_map, suc};
ghost use Rattle.serde_json.specs.Events.{SendsMembers, SendsValue, members_len};
ghost use Rattle.serde_json.specs.Data.{number};
ghost use Rattle.serde_json.specs.Find.{of_integer};
ghost use Rattle.serde_json.specs.View.{view};
ghost use Rattle.serde_json.specs.Written.{compact_text};
ghost use Rattle.x_published.specs.Diagnostics.{diagnostic_data, last_members, message_members, plain_data};
ghost use Rattle.x_positions.specs.PositionData.{position_data, range_data};
ghost use Rattle.x_published.specs.Diagnostics.{published_data, related_data, rest_members, severity_number};
ghost use Rattle.x_published.specs.Diagnostics.{severity_of};
ghost use Rattle.x_published.specs.Published.{data_of, place_data};

use crate::fault_messages::FaultMessage;
use serde::{Described, Serialize, Serializer};
use serde_json::Value;
use std::alloc::{AllocError, Global};
use x_positions::{Position, Range};
use x_session::{FaultCode, RuleCode};

/// How much a diagnostic matters.
#[derive(Clone, Copy, Debug, PartialEq, Eq)]
pub enum Severity {
    /// It is a fault of the text.
    Error,
    /// It says what C makes of a text that has no fault.
    Warning,
    /// It is a fault that follows from others, or says how many faults are not shown.
    Information,
    /// It says how the text is read.
    Hint,
}

impl Severity {
    /// The number of a severity in the protocol.
    fn number(self) -> u64
        ensures { result ≡ severity_number self }
    {
        match self {
            Severity::Error => 1,
            Severity::Warning => 2,
            Severity::Information => 3,
            Severity::Hint => 4,
        }
    }
}

/// How much a fault matters: one that follows from others is no error.
pub fn severity_of(code: FaultCode) -> Severity
    ensures { result ≡ severity_of code }
{
    if matches!(code, FaultCode::Rule(RuleCode::UsesFaulty)) {
        Severity::Information
    } else {
        Severity::Error
    }
}

/// A part of a document.
#[derive(Clone, Copy, Debug)]
pub struct Place<'d> {
    /// The document.
    pub uri: &'d str,
    /// The part.
    pub range: Range,
    /// What is said of it.
    pub said: &'static str,
}

/// A range of a document, if there is one, and what is said of it.
pub fn place_of<'d>(uri: &'d str, range: Option<Range>, said: &'static str) -> Option<Place<'d>>
    ensures { option_map place_data result ≡ option_map (related_data said.now uri.now) range }
{
    match range {
        Some(range) => Some(Place { uri, range, said }),
        None => None,
    }
}

/// What a diagnostic says.
#[derive(Drop)]
pub enum Message {
    /// What is said of a fault, or as a hint: it has the number of a fault.
    OfFault(FaultMessage),
    /// What has no number: what is said of a name that clashes in C, or of faults that are not shown.
    Plain(String),
}

/// What is published of a fault, of a name, of a line of cpp, or of faults that are not shown.
#[derive(Drop)]
pub struct Diagnostic<'d> {
    /// How much it matters.
    pub severity: Severity,
    /// What is said.
    pub message: Message,
    /// Of which part of the text.
    pub range: Range,
    /// Another place that matters.
    pub related: Option<Place<'d>>,
}

impl<'d> Described for Diagnostic<'d> {
    ghost use Rattle.serde_json.specs.Events.{SendsValue};
    ghost use Rattle.x_published.specs.Published.{data_of};

    ghost writes = { λ d. SendsValue (data_of d) };
}

impl<'d> Serialize for Diagnostic<'d> {
    fn serialize<S: Serializer>(&self, out: &mut S) -> Result<(), S::Error> {
        match &self.message {
            Message::OfFault(message) => {
                write_with_code(out, self, message.number, message.text.as_str())
            }
            Message::Plain(text) => write_without_code(out, self, text.as_str()),
        }
    }
}

/// Writes a diagnostic with a code and this text.
fn write_with_code<S: Serializer>(
    out: &mut S,
    diagnostic: &Diagnostic,
    code: usize,
    text: &str,
) -> Result<(), S::Error>
    ensures { let d = diagnostic.now in OnOk result (SendsValue
        (diagnostic_data d.severity code (range_data d.range.start d.range.end) text.now
        (option_map place_data d.related)) (S.written out.old) (S.written out.new)) }
{
    out.begin_map(Some(count_with_code(diagnostic.severity, &diagnostic.related)))?;
    out.key("code")?;
    out.u64(code as u64)?;
    write_members(out, diagnostic, text)
}

/// Writes one without a code.
fn write_without_code<S: Serializer>(
    out: &mut S,
    diagnostic: &Diagnostic,
    text: &str,
) -> Result<(), S::Error>
    ensures { let d = diagnostic.now in OnOk result (SendsValue
        (plain_data d.severity (range_data d.range.start d.range.end) text.now
        (option_map place_data d.related)) (S.written out.old) (S.written out.new)) }
{
    out.begin_map(Some(count_without_code(diagnostic.severity, &diagnostic.related)))?;
    write_members(out, diagnostic, text)
}

/// How many members a diagnostic with a code has.
fn count_with_code(severity: Severity, related: &Option<Place>) -> usize
    ensures { result
        ≡ suc (suc (suc (members_len (rest_members severity (option_map place_data related.now))))) }
{
    match related {
        Some(_) => 6,
        None => 5,
    }
}

/// How many members one without a code has.
fn count_without_code(severity: Severity, related: &Option<Place>) -> usize
    ensures { result ≡ suc (suc (members_len (rest_members severity (option_map place_data related.now)))) }
{
    match related {
        Some(_) => 5,
        None => 4,
    }
}

/// Writes the members of a diagnostic that stand behind its code.
fn write_members<S: Serializer>(
    out: &mut S,
    diagnostic: &Diagnostic,
    text: &str,
) -> Result<(), S::Error>
    ensures { let d = diagnostic.now in OnOk result (SendsMembers
        (message_members d.severity (range_data d.range.start d.range.end) text.now
        (option_map place_data d.related)) (S.written out.old) (S.written out.new)) }
{
    out.key("message")?;
    out.str(text)?;
    out.key("range")?;
    write_range(out, &diagnostic.range)?;
    write_rest(out, diagnostic.severity, &diagnostic.related)
}

/// Writes the members of a diagnostic that stand behind its range.
fn write_rest<S: Serializer>(
    out: &mut S,
    severity: Severity,
    related: &Option<Place>,
) -> Result<(), S::Error>
    ensures { OnOk result (SendsMembers (rest_members severity (option_map place_data related.now))
        (S.written out.old) (S.written out.new)) }
{
    match related {
        Some(place) => {
            out.key("relatedInformation")?;
            out.begin_seq(Some(1))?;
            write_place(out, place)?;
            out.end_seq()?;
            write_last(out, severity)
        }
        None => write_last(out, severity),
    }
}

/// Writes the last members of a diagnostic.
fn write_last<S: Serializer>(out: &mut S, severity: Severity) -> Result<(), S::Error>
    ensures { OnOk result (SendsMembers (last_members severity) (S.written out.old) (S.written out.new)) }
{
    out.key("severity")?;
    out.u64(severity.number())?;
    out.key("source")?;
    out.str("rpcgen")?;
    out.end_map()
}

/// Writes another place that matters.
fn write_place<S: Serializer>(out: &mut S, place: &Place) -> Result<(), S::Error>
    ensures { OnOk result (SendsValue (place_data place.now) (S.written out.old) (S.written out.new)) }
{
    out.begin_map(Some(2))?;
    out.key("location")?;
    out.begin_map(Some(2))?;
    out.key("range")?;
    write_range(out, &place.range)?;
    out.key("uri")?;
    out.str(place.uri)?;
    out.end_map()?;
    out.key("message")?;
    out.str(place.said)?;
    out.end_map()
}

/// Writes a range.
fn write_range<S: Serializer>(out: &mut S, range: &Range) -> Result<(), S::Error>
    ensures { OnOk result
        (SendsValue (range_data range.now.start range.now.end) (S.written out.old) (S.written out.new)) }
{
    out.begin_map(Some(2))?;
    out.key("end")?;
    write_position(out, &range.end)?;
    out.key("start")?;
    write_position(out, &range.start)?;
    out.end_map()
}

/// Writes a position.
fn write_position<S: Serializer>(out: &mut S, position: &Position) -> Result<(), S::Error>
    ensures { OnOk result (SendsValue (position_data position.now) (S.written out.old) (S.written out.new)) }
{
    out.begin_map(Some(2))?;
    out.key("character")?;
    out.u64(position.character as u64)?;
    out.key("line")?;
    out.u64(position.line as u64)?;
    out.end_map()
}

/// The note that publishes diagnostics of a version of a document.
#[derive(Drop)]
struct Publication<'d> {
    uri: &'d str,
    version: Value,
    list: Vec<Diagnostic<'d>>,
}

impl<'d> Described for Publication<'d> {
    ghost use Rattle.std.specs.Prelude.{map};
    ghost use Rattle.serde_json.specs.Events.{SendsValue};
    ghost use Rattle.serde_json.specs.View.{view};
    ghost use Rattle.x_published.specs.Diagnostics.{published_with};
    ghost use Rattle.x_published.specs.Published.{data_of};

    ghost writes = { λ p. SendsValue (published_with p.uri.now (view p.version) (map data_of p.list.items)) };
}

impl<'d> Serialize for Publication<'d> {
    fn serialize<S: Serializer>(&self, out: &mut S) -> Result<(), S::Error> {
        out.begin_map(Some(3))?;
        out.key("jsonrpc")?;
        out.str("2.0")?;
        out.key("method")?;
        out.str("textDocument/publishDiagnostics")?;
        out.key("params")?;
        out.begin_map(Some(3))?;
        out.key("diagnostics")?;
        self.list.serialize(out)?;
        out.key("uri")?;
        out.str(self.uri)?;
        out.key("version")?;
        self.version.serialize(out)?;
        out.end_map()?;
        out.end_map()
    }
}

/// The text of the note that publishes diagnostics of a version of a document, and these diagnostics.
///
/// # Errors
///
/// [`AllocError`] where the text could not grow.
pub fn published_text<'d>(
    alloc: Global,
    uri: &'d str,
    version: i64,
    list: Vec<Diagnostic<'d>>,
) -> Result<(Vec<u8>, Vec<Diagnostic<'d>>), AllocError>
    ensures { IfOk result (λ said. said.0.items
        ≡ compact_text (published_data uri.now version (map data_of list.entry.items))) }
{
    let publication = Publication {
        uri,
        version: version_value(version),
        list,
    };
    match serde_json::to_vec(alloc, &publication) {
        Ok(text) => Ok((text, publication.list)),
        Err(_) => Err(AllocError),
    }
}

fn version_value(version: i64) -> Value
    ensures { view result ≡ number (of_integer version) }
{
    Value::from(version)
}
