//! A document that a client has open.

ghost use Rattle.std.specs.Prelude.{◌≡◌, ◌≤◌, ◌⊎◌, ◌&&◌, IfErr, IfOk, OnOk, false, length, map, not};
ghost use Rattle.std.specs.Prelude.{option_map, string_bytes, true};
ghost use Rattle.serde_json.specs.View.{view};
ghost use Rattle.x_prelude.specs.Followed.{IsOver};
ghost use Rattle.x_frames.specs.Answers.{IsToNotification};
ghost use Rattle.x_frames.specs.Params.{position_asked, replacement_of};
ghost use Rattle.x_documents.specs.Changes.{changed_by_all};
ghost use Rattle.x_documents.specs.Compiled.{IsAsItStands, IsCompiled};
ghost use Rattle.x_args.specs.BaseNames.{base_of};
ghost use Rattle.x_documents.specs.DocumentNames.{name_of};
ghost use Rattle.x_documents.specs.Documents.{document_with, lost};
ghost use Rattle.x_documents.specs.Grounds.{ground_of, ground_with};
ghost use Rattle.x_documents.specs.Noting.{Fit, IsChanged, IsNotCompiled, IsNotOpened, IsStopped};
ghost use Rattle.x_documents.specs.Noting.{begin_whole};
ghost use Rattle.x_positions.specs.Positions.{offset_of};
ghost use Rattle.x_text.specs.Limits.{most_text};
ghost use Rattle.x_documents.specs.Publishing.{Publishes};
ghost use Rattle.x_documents.specs.Replies.{said_of};
ghost use Rattle.x_positions.specs.Waymarks.{AreWaymarks};

use crate::carrying::carry_out;
use crate::compiled::{has_lines, open_text, stands};
use crate::diagnostics::{Hints, publish};
use crate::kept::{Reply, told};
use crate::names::name_of;
use crate::setting::Setting;
use serde_json::Value;
use std::alloc::Global;
use std::mem;
use x_args::base_name;
use x_frames::{TextChange, position_asked};
use x_hash::HashKey;
use x_positions::{Encoding, Position, Waymarks};
use x_prelude::FollowedText;
use x_published::{Client, FaultMessages};
use x_session::EditFault;
use x_text::Source;

/// A document that a client has open: its text, and what is found in it.
#[derive(Drop)]
pub struct OpenDocument {
    pub(crate) uri: String,
    /// The name that all spellings of its URI have.
    pub(crate) name: Vec<u8>,
    pub(crate) version: i64,
    client: Client,
    /// The text that the client has.
    pub(crate) shown: Source,
    /// The text of the known files.
    files: Vec<u8>,
    /// Whether the lines of cpp are blanked in what is compiled.
    blanks: bool,
    /// Whether names that clash in C are published.
    warns: bool,
    /// How many of its faults are published at most.
    most: usize,
    /// What is compiled of it.
    pub(crate) compiled: FollowedText,
    /// Places of the text near which others are found.
    marks: Waymarks,
    /// What was said of its faults last.
    messages: FaultMessages,
    /// Whether it is known that the text is compiled, and as it stands: then an edit of it is one of that.
    stands: bool,
    /// Whether the text is the client's, and is compiled: no change was refused, or not understood, since it
    /// was sent whole.
    pub(crate) in_step: bool,
    ghost stood: { stands ≡ true → IsAsItStands files.items blanks shown compiled },
    ghost followed: { in_step ≡ true → IsCompiled files.items blanks shown compiled },
    ghost over: { ∥ IsOver compiled ∥₁ },
    ghost marked: { AreWaymarks shown marks },
    ghost counted: { marks.encoding ≡ client.encoding },
    ghost named: { name.items ≡ name_of (string_bytes uri) },
    ghost based: { compiled.session.base ≡ base_of (name_of (string_bytes uri)) },
}

impl OpenDocument {
    /// Opens a document of a client. Tables of its names hash by the key.
    pub(crate) fn open(
        alloc: Global,
        hash_key: HashKey,
        client: Client,
        setting: &Setting,
        uri: &str,
        version: i64,
        text: &str,
    ) -> Result<OpenDocument, EditFault>
        ensures client { IfOk result (λ d. d.client ≡ client) }
        ensures uri { IfOk result (λ d. string_bytes d.uri ≡ uri.now) }
        ensures version { IfOk result (λ d. d.version ≡ version) }
        ensures standing { IfOk result
            (λ d. ground_with d.files.items d.compiled.from_c d.blanks d.warns d.most
            ≡ ground_of setting.now) }
        ensures text { IfOk result (λ d. d.shown ≡ text.now) }
        ensures in_step { IfOk result (λ d. d.in_step ≡ true) }
        ensures small { OnOk result (length text.now ≤ most_text) }
        ensures fault { IfErr result (IsNotOpened (ground_of setting.now) text.now) }
        ensures base { IfOk result (λ d. d.compiled.session.base ≡ base_of (name_of uri.now)) }
    {
        let Ok(name) = name_of(alloc, uri) else {
            return Err(EditFault::NoMemory);
        };
        let (Ok(own_uri), Ok(files)) = (
            String::from_str(alloc, uri),
            Vec::from_slice(alloc, setting.files),
        ) else {
            return Err(EditFault::NoMemory);
        };
        let shown = Source::from_bytes(alloc, text.as_bytes())?;
        let stands = stands(setting.blanks, shown.bytes(), shown.bytes());
        let compiled = open_text(alloc, hash_key, setting, base_name(&name), shown.bytes())?;
        let Ok(marks) = Waymarks::of(alloc, client.encoding, shown.bytes()) else {
            return Err(EditFault::NoMemory);
        };
        Ok(OpenDocument {
            uri: own_uri,
            name,
            version,
            client,
            shown,
            files,
            blanks: setting.blanks,
            warns: setting.warns,
            most: setting.most,
            compiled,
            marks,
            messages: FaultMessages::new(alloc),
            stands,
            in_step: true,
        })
    }

    /// Carries changes out, one after another, which leave this version, or the old one where it is null, and
    /// publishes the faults of the text then. At the first that is refused it stops, and the document is out
    /// of step. While it is, changes are passed over that do not begin with a whole text.
    pub(crate) fn change(
        &mut self,
        alloc: Global,
        version: Option<i64>,
        changes: &[TextChange],
    ) -> Reply
        ensures changed { IsChanged
            (document_with (string_bytes self.old.uri) self.old.client
            (ground_with self.old.files.items self.old.compiled.from_c self.old.blanks self.old.warns
            self.old.most)
            self.old.version self.old.in_step self.old.shown)
            version (map replacement_of changes.now) (said_of result)
            (document_with (string_bytes self.new.uri) self.new.client
            (ground_with self.new.files.items self.new.compiled.from_c self.new.blanks self.new.warns
            self.new.most)
            self.new.version self.new.in_step self.new.shown) }
        ensures note { IsToNotification (said_of result) }
    {
        let was_in_step = self.in_step;
        if are_passed_over(was_in_step, changes) {
            return Reply::Nothing;
        }
        self.in_step = false;
        if let Err(fault) = self.carry_out(alloc, changes) {
            return if was_in_step {
                told(alloc, fault)
            } else {
                Reply::Nothing
            };
        }
        self.in_step = true;
        self.version = version.unwrap_or(self.version);
        self.publish(alloc)
    }

    /// Carries changes out, one after another, up to the first that is refused, and compiles what they leave,
    /// if that is another text.
    fn carry_out(&mut self, alloc: Global, changes: &[TextChange]) -> Result<(), EditFault>
        requires { self.old.in_step ≡ false }
        ensures text { OnOk result (self.new.shown
            ≡ changed_by_all self.old.client.encoding self.old.shown (map replacement_of changes.now)) }
        ensures fit { OnOk result
            (Fit self.old.client.encoding self.old.shown (map replacement_of changes.now)) }
        ensures base { self.new.compiled.session.base ≡ self.old.compiled.session.base }
        ensures followed { OnOk result
            (IsCompiled self.new.files.items self.new.blanks self.new.shown self.new.compiled) }
        ensures fault { IfErr result (λ fault.
            IsStopped self.old.client.encoding self.old.shown fault (map replacement_of changes.now)
            ⊎ IsNotCompiled (ground_with self.old.files.items self.old.compiled.from_c self.old.blanks
            self.old.warns self.old.most)
            (changed_by_all self.old.client.encoding self.old.shown (map replacement_of changes.now)) fault) }
        ensures in_step { self.new.in_step ≡ false }
        ensures client { self.new.client ≡ self.old.client }
        ensures uri { self.new.uri ≡ self.old.uri }
        ensures version { self.new.version ≡ self.old.version }
        ensures standing { ground_with self.new.files.items self.new.compiled.from_c self.new.blanks
            self.new.warns self.new.most
            ≡ ground_with self.old.files.items self.old.compiled.from_c self.old.blanks self.old.warns
            self.old.most }
    {
        let stood = mem::replace(&mut self.stands, false);
        self.stands = carry_out(
            alloc,
            &mut self.shown,
            &mut self.marks,
            &mut self.compiled,
            &self.files,
            self.blanks,
            stood,
            changes,
        )?;
        Ok(())
    }

    /// The document is out of step. Whether it was in step before.
    pub(crate) fn lose(&mut self) -> bool
        ensures fell { result ≡ self.old.in_step }
        ensures lost { document_with (string_bytes self.new.uri) self.new.client
            (ground_with self.new.files.items self.new.compiled.from_c self.new.blanks self.new.warns
            self.new.most)
            self.new.version self.new.in_step self.new.shown
            ≡ lost (document_with (string_bytes self.old.uri) self.old.client
            (ground_with self.old.files.items self.old.compiled.from_c self.old.blanks self.old.warns
            self.old.most)
            self.old.version self.old.in_step self.old.shown) }
    {
        mem::replace(&mut self.in_step, false)
    }

    /// What publishes what is wrong with the text, which is compiled.
    pub(crate) fn publish(&mut self, alloc: Global) -> Reply
        requires { self.old.in_step ≡ true }
        ensures says { Publishes self.old.client (string_bytes self.old.uri) self.old.version
            (ground_with self.old.files.items self.old.compiled.from_c self.old.blanks self.old.warns
            self.old.most)
            self.old.shown (said_of result) }
        ensures note { IsToNotification (said_of result) }
        ensures same { document_with (string_bytes self.new.uri) self.new.client
            (ground_with self.new.files.items self.new.compiled.from_c self.new.blanks self.new.warns
            self.new.most)
            self.new.version self.new.in_step self.new.shown
            ≡ document_with (string_bytes self.old.uri) self.old.client
            (ground_with self.old.files.items self.old.compiled.from_c self.old.blanks self.old.warns
            self.old.most)
            self.old.version self.old.in_step self.old.shown }
    {
        let compiled = &self.compiled;
        let Ok(foreign) = compiled.foreign_names() else {
            return Reply::NoMemoryNote;
        };
        let hints = Hints {
            blanks: has_lines(self.blanks, self.stands),
            foreign: &foreign,
            warns: self.warns,
            most: self.most,
        };
        match publish(
            alloc,
            self.client,
            self.uri.as_str(),
            self.version,
            &hints,
            self.shown.bytes(),
            &compiled.session,
            &mut self.marks,
            &mut self.messages,
        ) {
            Ok(text) => Reply::Text(text),
            Err(_) => Reply::NoMemoryNote,
        }
    }

    /// Whether its text is that of the client.
    pub fn is_in_step(&self) -> bool
        ensures { result ≡ self.now.in_step }
    {
        self.in_step
    }

    /// How the client that opened it counts characters.
    pub fn encoding(&self) -> Encoding
        ensures { result ≡ self.now.client.encoding }
    {
        self.client.encoding
    }

    /// Its URI, as it was opened.
    pub fn uri(&self) -> &str
        ensures { result.now ≡ string_bytes self.now.uri }
    {
        self.uri.as_str()
    }

    /// The text that the client has, where it is in step.
    pub fn shown(&self) -> &Source
        ensures { result.now ≡ self.now.shown }
    {
        &self.shown
    }

    /// What is compiled of that text.
    pub fn compiled(&self) -> &FollowedText
        ensures { result.now ≡ self.now.compiled }
    {
        &self.compiled
    }

    /// The place that is asked about, if one is named.
    pub fn place_asked(&self, params: Option<&Value>) -> Option<usize>
        ensures { result ≡ option_map (offset_of self.now.client.encoding self.now.shown)
            (position_asked (option_map (λ p. view p.now) params.entry)) }
    {
        Some(self.place(position_asked(params)?))
    }

    /// The place of a position in the text.
    fn place(&self, position: Position) -> usize
        ensures { result ≡ offset_of self.now.client.encoding self.now.shown position }
    {
        self.marks.offset(self.shown.bytes(), position)
    }
}

/// Whether changes of a document are passed over, which is in step or not.
fn are_passed_over(in_step: bool, changes: &[TextChange]) -> bool
    ensures { result ≡ (not in_step && not (begin_whole (map replacement_of changes.now))) }
{
    !in_step && !begin_whole(changes)
}

/// Whether changes begin with a text that takes the place of all.
fn begin_whole(changes: &[TextChange]) -> bool
    ensures { result ≡ begin_whole (map replacement_of changes.now) }
{
    match changes {
        [first, ..] => first.range.is_none(),
        [] => false,
    }
}
