//! What is kept to be said when memory runs out.

ghost use Rattle.std.specs.Prelude.{◌≡◌, MatchBool, None, false, option_map};
ghost use Rattle.serde_json.specs.View.{view};
ghost use Rattle.serde_json.specs.Written.{has_float};
ghost use Rattle.x_frames.specs.Answers.{IsRefused};
ghost use Rattle.x_frames.specs.KeptSaid.{no_memory_answer, no_memory_note};
ghost use Rattle.x_documents.specs.Noting.{Shows, refused_text, wrong_note};
ghost use Rattle.x_documents.specs.Replies.{said_of};

use serde_json::Value;
use std::alloc::{AllocError, Global};
use x_frames::{ErrorCode, NoteKind, refusal, shown_text};
use x_session::EditFault;

/// What is said to a message.
#[derive(Drop)]
pub enum Reply {
    /// Nothing.
    Nothing,
    /// A text.
    Text(Vec<u8>),
    /// That memory ran out, as an answer to a request.
    NoMemoryAnswer,
    /// That memory ran out, as a note.
    NoMemoryNote,
}

/// The texts that tell that memory ran out, made before it does.
#[derive(Drop)]
pub struct KeptTexts {
    answer: Vec<u8>,
    note: Vec<u8>,
    ghost answer_is: { answer.items ≡ no_memory_answer },
    ghost note_is: { note.items ≡ no_memory_note },
}

impl KeptTexts {
    /// The texts.
    ///
    /// # Errors
    ///
    /// [`AllocError`] where there is no memory for them.
    pub fn new(alloc: Global) -> Result<KeptTexts, AllocError> {
        Ok(KeptTexts {
            answer: refusal(alloc, &Value::Null, ErrorCode::InternalError)?,
            note: shown_text(alloc, "out of memory")?,
        })
    }

    /// The text of a reply, if it has one.
    pub fn text_of<'r>(&'r self, reply: &'r Reply) -> Option<&'r [u8]>
        ensures { option_map (λ text. text.now) result ≡ said_of reply.now }
    {
        match reply {
            Reply::Nothing => None,
            Reply::Text(text) => Some(text.as_slice()),
            Reply::NoMemoryAnswer => Some(self.answer.as_slice()),
            Reply::NoMemoryNote => Some(self.note.as_slice()),
        }
    }
}

/// The answer that refuses the request with this id, or that memory ran out.
pub fn refused(alloc: Global, id: &Value, code: ErrorCode) -> Reply
    requires { has_float (view id.now) ≡ false }
    ensures { IsRefused (view id.now) code (said_of result) }
{
    match refusal(alloc, id, code) {
        Ok(text) => Reply::Text(text),
        Err(_) => Reply::NoMemoryAnswer,
    }
}

/// The note that shows a text to the user.
pub(crate) fn shown(alloc: Global, text: &str) -> Reply
    ensures { Shows text.now (said_of result) }
{
    match shown_text(alloc, text) {
        Ok(text) => Reply::Text(text),
        Err(_) => Reply::NoMemoryNote,
    }
}

/// The note that shows why documents fell out of step, if one did.
pub(crate) fn shown_if(alloc: Global, fell: bool, why: &str) -> Reply
    ensures { MatchBool fell (Shows why.now (said_of result)) (said_of result ≡ None) }
{
    if fell {
        shown(alloc, why)
    } else {
        Reply::Nothing
    }
}

/// Why a notification about a document is not understood.
pub(crate) fn wrong_note(kind: NoteKind) -> &'static str
    ensures { result.now ≡ wrong_note kind }
{
    match kind {
        NoteKind::Open => "the parameters of didOpen are wrong",
        NoteKind::Change => "the parameters of didChange are wrong",
        NoteKind::Close => "the parameters of didClose are wrong",
    }
}

/// The note that tells the user why a document is not what the client has.
pub(crate) fn told(alloc: Global, fault: EditFault) -> Reply
    ensures { Shows (refused_text fault) (said_of result) }
{
    match fault {
        EditFault::BadRange => shown(
            alloc,
            "a change was refused, open the document again: 1 BadRange",
        ),
        EditFault::TooLarge => shown(alloc, "a text was refused: 2 TooLarge"),
        EditFault::NoMemory => Reply::NoMemoryNote,
    }
}
