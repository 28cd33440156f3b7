//! What notifications make of the documents that a client has open.

ghost use Rattle.std.specs.Prelude.{◌≡◌, ◌≤◌, IfErr, IfOk, List, OnOk, Some, length, option_map, true, ℕ};
ghost use Rattle.x_documents.specs.Documents.{lost, opened_as};
ghost use Rattle.x_documents.specs.Grounds.{ground_of};
ghost use Rattle.x_documents.specs.Noting.{BecomesOf, Falls, IsNotOpened, Misses, Notes, Opens};
ghost use Rattle.x_documents.specs.Noting.{OpensLost, Shows};
ghost use Rattle.x_documents.specs.Replies.{said_of};
ghost use Rattle.x_documents.specs.Views.{documents_of, view_document};
ghost use Rattle.x_frames.specs.Answers.{IsToNotification};
ghost use Rattle.x_frames.specs.Notes.{noted_of};
ghost use Rattle.x_text.specs.Limits.{most_text};

use crate::document::OpenDocument;
use crate::documents::Documents;
use crate::kept::{Reply, shown, shown_if, told, wrong_note};
use crate::setting::Setting;
use x_frames::{DocumentNote, NoteKind};
use x_published::Client;
use x_session::EditFault;
use x_text::NoMemory;

impl Documents {
    /// Does what a notification of a client asks for, whose documents are compiled by this setting, and gives
    /// what is said to it (LSP 3.17, "Text Document Synchronization").
    pub fn note(&mut self, client: Client, setting: &Setting, note: DocumentNote) -> Reply
        ensures notes { Notes client (ground_of setting.now) (documents_of self.old) (noted_of note.entry)
            (said_of result) (documents_of self.new) }
        ensures note { IsToNotification (said_of result) }
    {
        match note {
            DocumentNote::Open { uri, version, text } => {
                self.open(client, setting, uri, version, text)
            }
            DocumentNote::Change {
                uri,
                version,
                changes,
            } => self.change(uri, version, changes),
            DocumentNote::Close { uri } => self.close(uri),
            DocumentNote::Wrong { kind, uri } => self.miss(client, setting, kind, uri),
            DocumentNote::Other => Reply::Nothing,
        }
    }

    /// Opens a document, in place of one of its name that is open, and publishes its faults.
    fn open(
        &mut self,
        client: Client,
        setting: &Setting,
        uri: &str,
        version: i64,
        text: &str,
    ) -> Reply
        ensures opens { Opens client (ground_of setting.now) (documents_of self.old) uri.now version
            text.now (said_of result) (documents_of self.new) }
        ensures note { IsToNotification (said_of result) }
    {
        match self.document(client, setting, uri, version, text) {
            Ok(document) => {
                let mut document = document;
                let reply = document.publish(self.alloc);
                match self.put(uri, document) {
                    Ok(()) => reply,
                    Err(NoMemory) => Reply::NoMemoryNote,
                }
            }
            Err(fault) => {
                let why = told(self.alloc, fault);
                self.open_lost(client, setting, uri, why)
            }
        }
    }

    /// A document of a client.
    fn document(
        &self,
        client: Client,
        setting: &Setting,
        uri: &str,
        version: i64,
        text: &str,
    ) -> Result<OpenDocument, EditFault>
        ensures opened { IfOk result (λ d. view_document d
            ≡ opened_as client (ground_of setting.now) uri.now version text.now) }
        ensures in_step { IfOk result (λ d. d.in_step ≡ true) }
        ensures small { OnOk result (length text.now ≤ most_text) }
        ensures fault { IfErr result (IsNotOpened (ground_of setting.now) text.now) }
    {
        OpenDocument::open(
            self.alloc,
            self.hash_key,
            client,
            setting,
            uri,
            version,
            text,
        )
    }

    /// A document that could not be opened is open out of step, with the text of the one of its name, or with
    /// none. The user is shown why; where there is no memory to have it open, that.
    fn open_lost(&mut self, client: Client, setting: &Setting, uri: &str, why: Reply) -> Reply
        ensures opens { (told : List ℕ) → Shows told (said_of why) → OpensLost client
            (ground_of setting.now) (documents_of self.old) uri.now told (said_of result)
            (documents_of self.new) }
        ensures note { IsToNotification (said_of why) → IsToNotification (said_of result) }
    {
        if self.lose(uri).is_some() {
            return why;
        }
        let Ok(mut unread) = self.document(client, setting, uri, 0, "") else {
            return Reply::NoMemoryNote;
        };
        let _ = unread.lose();
        match self.put(uri, unread) {
            Ok(()) => why,
            Err(NoMemory) => Reply::NoMemoryNote,
        }
    }

    /// A notification was not understood that concerns a document: the one that it names, or any.
    fn miss(
        &mut self,
        client: Client,
        setting: &Setting,
        kind: NoteKind,
        uri: Option<&str>,
    ) -> Reply
        ensures misses { Misses kind (option_map (λ u. u.now) uri.entry) client (ground_of setting.now)
            (documents_of self.old) (said_of result) (documents_of self.new) }
        ensures note { IsToNotification (said_of result) }
    {
        match uri {
            None => shown_if(self.alloc, self.lose_all(), wrong_note(kind)),
            Some(uri) => self.miss_of(client, setting, kind, uri),
        }
    }

    /// A notification was not understood that concerns the document of a URI.
    fn miss_of(&mut self, client: Client, setting: &Setting, kind: NoteKind, uri: &str) -> Reply
        ensures misses { Misses kind (Some uri.now) client (ground_of setting.now)
            (documents_of self.old) (said_of result) (documents_of self.new) }
        ensures note { IsToNotification (said_of result) }
    {
        match kind {
            NoteKind::Open => {
                let why = shown(self.alloc, wrong_note(NoteKind::Open));
                self.open_lost(client, setting, uri, why)
            }
            NoteKind::Change => self.fall(uri, wrong_note(NoteKind::Change)),
            NoteKind::Close => self.fall(uri, wrong_note(NoteKind::Close)),
        }
    }

    /// The document of a URI falls out of step, if there is one.
    fn fall(&mut self, uri: &str, why: &str) -> Reply
        ensures becomes { BecomesOf uri.now (documents_of self.old)
            (λ d d'. (d' ≡ lost d) × Falls d.text why.now (said_of result)) (said_of result)
            (documents_of self.new) }
        ensures note { IsToNotification (said_of result) }
    {
        let fell = self.lose(uri).unwrap_or(false);
        shown_if(self.alloc, fell, why)
    }
}
