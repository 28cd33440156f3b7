//! What notifications ask for of documents.

ghost use Rattle.std.specs.List.{list_any};
ghost use Rattle.std.specs.Prelude.{◌≡◌, ◌==◌, codes, option_map};
ghost use Rattle.serde_json.specs.Find.{get};
ghost use Rattle.serde_json.specs.View.{items_view, view};
ghost use Rattle.x_frames.specs.Messages.{asked_by};
ghost use Rattle.x_frames.specs.Notes.{changing, misread_as, misread_by, note_kind_named, noted_as, noted_by};
ghost use Rattle.x_frames.specs.Notes.{noted_of, opening, whole_uri};
ghost use Rattle.x_frames.specs.Params.{uri_in};

use crate::messages::{Incoming, classify};
use crate::params::{changed_version_in, changes_in, text_in, uri_in, version_in};
use serde_json::Value;

/// A notification about a document.
#[derive(Clone, Copy, Debug, PartialEq, Eq)]
pub enum NoteKind {
    /// `textDocument/didOpen`.
    Open,
    /// `textDocument/didChange`.
    Change,
    /// `textDocument/didClose`.
    Close,
}

impl NoteKind {
    /// The notification of this name.
    fn named(name: &str) -> Option<NoteKind>
        ensures { result ≡ note_kind_named name.now }
    {
        if name == "textDocument/didOpen" {
            Some(NoteKind::Open)
        } else if name == "textDocument/didChange" {
            Some(NoteKind::Change)
        } else if name == "textDocument/didClose" {
            Some(NoteKind::Close)
        } else {
            None
        }
    }
}

/// What a notification asks for of documents.
#[derive(Clone, Copy)]
pub enum DocumentNote<'m> {
    /// A document is open, with this version and this text.
    Open {
        uri: &'m str,
        version: i64,
        text: &'m str,
    },
    /// A document has changed; its version then, if that is not null.
    Change {
        uri: &'m str,
        version: Option<i64>,
        changes: &'m Vec<Value>,
    },
    /// A document is closed.
    Close {
        uri: &'m str,
    },
    /// It is not understood, of the document that it names, or of one that is not known.
    Wrong {
        kind: NoteKind,
        uri: Option<&'m str>,
    },
    /// Nothing.
    Other,
}

/// What a notification of this name asks for (LSP 3.17, "Text Document Synchronization").
pub fn document_note<'m>(name: &str, params: Option<&'m Value>) -> DocumentNote<'m>
    ensures { noted_of result ≡ noted_by name.now (option_map (λ p. view p.now) params.entry) }
{
    match NoteKind::named(name) {
        Some(kind) => note_of_kind(kind, params),
        None => DocumentNote::Other,
    }
}

/// What a notification about a document asks for that is misread, as it had halves of pairs of surrogates: it
/// is not understood, of the document that it names, unless that name may have had a half.
pub fn misread_note(message: &Value) -> Option<DocumentNote<'_>>
    ensures { option_map noted_of result
        ≡ misread_by (asked_by (view message.now)) (get (codes "params") (view message.now)) }
{
    match classify(message) {
        Incoming::Notification { method } => misread_of(method, message.get("params")),
        _ => None,
    }
}

/// The same of a notification of this name.
fn misread_of<'m>(name: &str, params: Option<&'m Value>) -> Option<DocumentNote<'m>>
    ensures { option_map noted_of result
        ≡ misread_as (note_kind_named name.now) (option_map (λ p. view p.now) params.entry) }
{
    match NoteKind::named(name) {
        Some(kind) => Some(DocumentNote::Wrong {
            kind,
            uri: whole_uri(uri_in(params)),
        }),
        None => None,
    }
}

/// A URI without a question mark, which may stand for a half.
fn whole_uri(uri: Option<&str>) -> Option<&str>
    ensures { option_map (λ u. u.now) result ≡ whole_uri (option_map (λ u. u.now) uri.entry) }
{
    match uri {
        Some(uri) if !has_question_mark(uri.as_bytes()) => Some(uri),
        _ => None,
    }
}

fn has_question_mark(bytes: &[u8]) -> bool
    ensures { result ≡ list_any (λ b. b == 63) bytes.now }
{
    bytes.contains(&b'?')
}

/// What a notification about a document asks for.
fn note_of_kind(kind: NoteKind, params: Option<&Value>) -> DocumentNote<'_>
    ensures { noted_of result ≡ noted_as kind (uri_in (option_map (λ p. view p.now) params.entry))
        (option_map (λ p. view p.now) params.entry) }
{
    let Some(uri) = uri_in(params) else {
        return DocumentNote::Wrong { kind, uri: None };
    };
    match kind {
        NoteKind::Open => opening(uri, version_in(params), text_in(params)),
        NoteKind::Change => changing(uri, changed_version_in(params), changes_in(params)),
        NoteKind::Close => DocumentNote::Close { uri },
    }
}

/// That a document is opened, if its version and its text are understood.
fn opening<'m>(uri: &'m str, version: Option<i64>, text: Option<&'m str>) -> DocumentNote<'m>
    ensures { noted_of result ≡ opening uri.now version (option_map (λ t. t.now) text.entry) }
{
    match (version, text) {
        (Some(version), Some(text)) => DocumentNote::Open { uri, version, text },
        _ => DocumentNote::Wrong {
            kind: NoteKind::Open,
            uri: Some(uri),
        },
    }
}

/// That a document is changed, if its version is understood and there is a list of changes.
fn changing<'m>(
    uri: &'m str,
    version: Option<Option<i64>>,
    changes: Option<&'m Vec<Value>>,
) -> DocumentNote<'m>
    ensures { noted_of result ≡ changing uri.now version
        (option_map (λ items. items_view items.now.items) changes.entry) }
{
    match (version, changes) {
        (Some(version), Some(changes)) => DocumentNote::Change {
            uri,
            version,
            changes,
        },
        _ => DocumentNote::Wrong {
            kind: NoteKind::Change,
            uri: Some(uri),
        },
    }
}
