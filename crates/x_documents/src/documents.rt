//! The documents that a client has open.

ghost use Rattle.std.specs.Prelude.{◌≡◌, ◌<◌, ◌⊎◌, [], MatchOption, None, OnErr, OnOk, Some, bytes_eq};
ghost use Rattle.std.specs.Prelude.{filter, length, map, not, option_map, remove, vec_len};
ghost use Rattle.std.specs.List.{list_any};
ghost use Rattle.serde_json.specs.View.{items_view};
ghost use Rattle.serde_json.specs.Written.{compact_text};
ghost use Rattle.x_documents.specs.DocumentNames.{name_of};
ghost use Rattle.x_documents.specs.Documents.{document_of, is_in_step, lost, put, without};
ghost use Rattle.x_documents.specs.Noting.{BecomesOf, Closes, IsChangedIf};
ghost use Rattle.x_documents.specs.Replies.{said_of};
ghost use Rattle.x_documents.specs.Views.{IsFoundAt, documents_of, view_document};
ghost use Rattle.x_frames.specs.Answers.{IsToNotification};
ghost use Rattle.x_frames.specs.KeptSaid.{no_memory_note};
ghost use Rattle.x_frames.specs.Params.{replacements_in};
ghost use Rattle.x_published.specs.Diagnostics.{closing_data};

use crate::diagnostics::closing_note;
use crate::document::OpenDocument;
use crate::kept::{Reply, shown_if, wrong_note};
use crate::names::is_name_of;
use serde_json::Value;
use std::alloc::Global;
use x_frames::{NoteKind, text_changes};
use x_hash::HashKey;
use x_text::NoMemory;

/// For how many documents there is room from the start: a list that grew later would stand in memory behind
/// them, and keep theirs from going back to the system.
const ROOM: usize = 64;

/// The documents that a client has open, each of another name.
#[derive(Drop)]
pub struct Documents {
    pub(crate) alloc: Global,
    /// What tables of the names in documents hash by.
    pub(crate) hash_key: HashKey,
    list: Vec<OpenDocument>,
}

impl Documents {
    /// No documents. Whoever writes what the client opens and types must not know the key, by which tables of
    /// the names in it hash.
    pub fn new(alloc: Global, hash_key: HashKey) -> Documents
        ensures { documents_of result ≡ [] }
    {
        let list = match Vec::with_capacity(alloc, ROOM) {
            Ok(list) => list,
            Err(_) => Vec::new(alloc),
        };
        Documents {
            alloc,
            hash_key,
            list,
        }
    }

    /// How many there are.
    pub fn count(&self) -> usize
        ensures { result ≡ length (documents_of self.now) }
    {
        self.list.len()
    }

    /// The index of the document of a URI.
    fn find(&self, uri: &str) -> Option<usize>
        ensures { IsFoundAt self.now.list.items uri.now result }
    {
        for at in 0..self.list.len() {
            if is_name_of(&self.list[at].name, uri) {
                return Some(at);
            }
        }
        None
    }

    /// The document of a URI.
    pub fn get(&self, uri: &str) -> Option<&OpenDocument>
        ensures { option_map (λ d. view_document d.now) result
            ≡ document_of uri.now (documents_of self.now) }
    {
        match self.find(uri) {
            Some(at) => Some(&self.list[at]),
            None => None,
        }
    }

    /// Puts a document in the place of that of a URI, or behind the others if there is none. After an error
    /// all is as before.
    pub(crate) fn put(&mut self, uri: &str, document: OpenDocument) -> Result<(), NoMemory>
        ensures put { OnOk result
            (documents_of self.new ≡ put uri.now (view_document document) (documents_of self.old)) }
        ensures none { OnErr result (document_of uri.now (documents_of self.old) ≡ None) }
        ensures same { OnErr result (documents_of self.new ≡ documents_of self.old) }
    {
        match self.find(uri) {
            Some(at) => self.list[at] = document,
            None => self.list.push(document)?,
        }
        Ok(())
    }

    /// The document of a URI is out of step. Whether it was in step, if there is one.
    pub(crate) fn lose(&mut self, uri: &str) -> Option<bool>
        ensures { MatchOption (document_of uri.now (documents_of self.old))
            ((result ≡ None) × (documents_of self.new ≡ documents_of self.old))
            (λ d. (result ≡ Some (is_in_step d))
            × (documents_of self.new ≡ put uri.now (lost d) (documents_of self.old))) }
    {
        match self.find(uri) {
            Some(at) => Some(self.list[at].lose()),
            None => None,
        }
    }

    /// Each document is out of step. Whether one was in step.
    pub fn lose_all(&mut self) -> bool
        ensures lost { documents_of self.new ≡ map lost (documents_of self.old) }
        ensures fell { result ≡ list_any is_in_step (documents_of self.old) }
    {
        lose_each(&mut self.list)
    }

    /// Carries changes of the document of a URI out.
    pub(crate) fn change(&mut self, uri: &str, version: Option<i64>, changes: &Vec<Value>) -> Reply
        ensures becomes { BecomesOf uri.now (documents_of self.old)
            (λ d d'. IsChangedIf d version (replacements_in (items_view changes.now.items))
            (said_of result) d') (said_of result) (documents_of self.new) }
        ensures note { IsToNotification (said_of result) }
    {
        match self.find(uri) {
            Some(at) => change_document(self.alloc, &mut self.list[at], version, changes),
            None => Reply::Nothing,
        }
    }

    /// Closes the document of a URI, and publishes that nothing is wrong with it.
    pub(crate) fn close(&mut self, uri: &str) -> Reply
        ensures closed { documents_of self.new ≡ without uri.now (documents_of self.old) }
        ensures says { Closes (document_of uri.now (documents_of self.old)) (said_of result) }
        ensures note { IsToNotification (said_of result) }
    {
        let reply = match self.get(uri) {
            Some(document) => closed(self.alloc, document.uri.as_str()),
            None => Reply::Nothing,
        };
        forget(&mut self.list, uri);
        reply
    }
}

/// Each document is out of step. Whether one was in step.
fn lose_each(documents: &mut Vec<OpenDocument>) -> bool
    ensures lost { map view_document documents.new.items
        ≡ map lost (map view_document documents.old.items) }
    ensures fell { result ≡ list_any is_in_step (map view_document documents.old.items) }
{
    let mut fell = false;
    for at in 0..documents.len() {
        fell |= documents[at].lose();
    }
    fell
}

/// Carries changes of a document out, if each of them is understood.
fn change_document(
    alloc: Global,
    document: &mut OpenDocument,
    version: Option<i64>,
    changes: &Vec<Value>,
) -> Reply
    ensures changed { IsChangedIf (view_document document.old) version
        (replacements_in (items_view changes.now.items)) (said_of result) (view_document document.new) }
    ensures note { IsToNotification (said_of result) }
{
    match text_changes(alloc, changes) {
        Ok(Some(changes)) => document.change(alloc, version, &changes),
        Ok(None) => shown_if(alloc, document.lose(), wrong_note(NoteKind::Change)),
        Err(_) => {
            if document.lose() {
                Reply::NoMemoryNote
            } else {
                Reply::Nothing
            }
        }
    }
}

/// Publishes that nothing is wrong with a document which was opened by this URI.
fn closed(alloc: Global, uri: &str) -> Reply
    ensures says { (said_of result ≡ Some (compact_text (closing_data uri.now)))
        ⊎ (said_of result ≡ Some no_memory_note) }
    ensures note { IsToNotification (said_of result) }
{
    match closing_note(alloc, uri) {
        Ok(text) => Reply::Text(text),
        Err(_) => Reply::NoMemoryNote,
    }
}

/// Takes the document of a URI out.
fn forget(documents: &mut Vec<OpenDocument>, uri: &str)
    ensures { documents.new.items
        ≡ filter (λ d. not (bytes_eq d.name.items (name_of uri.now))) documents.old.items }
{
    let mut at = documents.len();
    'documents: while at > 0 {
        at -= 1;
        if is_name_of(&documents[at].name, uri) {
            remove_at(documents, at);
        }
    }
}

/// Takes the document at an index out.
fn remove_at(documents: &mut Vec<OpenDocument>, at: usize)
    requires { at < vec_len documents.old }
    ensures { documents.new.items ≡ remove documents.old.items at }
{
    let _ = documents.remove(at);
}
