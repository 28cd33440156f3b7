//! Messages of LSP (3.17): how they are framed, what a client says, what a server answers, and which requests
//! it carries out in which part of its life.
#![tactic(auto)]

mod answers;
mod cancelling;
mod capabilities;
mod changes;
mod framing;
mod halves;
mod head;
mod life;
mod list_text;
mod messages;
mod method;
mod notes;
mod params;
mod plain_list;
mod plain_object;

pub use answers::{ErrorCode, answer_front, note, refusal, result_text, shown_text};
pub use cancelling::is_cancelled;
pub use capabilities::capabilities_of;
pub use changes::TextChange;
pub use framing::{FrameFault, FrameFound, MOST_BODY, MOST_HEAD, MessageReader};
pub use halves::mended_message;
pub use head::number;
pub use life::Life;
pub use list_text::{end_list, write_number};
pub use messages::{Incoming, classify};
pub use method::{DocumentQuestion, Method, PositionQuestion, Question};
pub use notes::{DocumentNote, NoteKind, document_note, misread_note};
pub use params::{member, position_asked, text_changes, uri_in};
pub use plain_list::PlainList;
