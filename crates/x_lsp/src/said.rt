//! What a server says to a message.

ghost use Rattle.std.specs.Prelude.{◌≡◌, false};
ghost use Rattle.serde_json.specs.View.{view};
ghost use Rattle.serde_json.specs.Written.{has_float};
ghost use Rattle.x_frames.specs.Answers.{IsRefused};
ghost use Rattle.x_lsp.specs.Saying.{said_by};

use crate::answer::Answer;
use serde_json::Value;
use std::alloc::Global;
use x_documents::Reply;
use x_frames::ErrorCode;

/// What is said to a message.
#[derive(Drop)]
pub enum Said {
    /// Nothing, or a text of its own.
    Reply(Reply),
    /// The answer to a request that is carried out.
    Answered(Answer),
}

impl From<Reply> for Said {
    ghost use Rattle.std.specs.Prelude.{◌≡◌};
    ghost use Rattle.x_lsp.specs.declared.said.Said.TheVariants as variants;

    ghost from_gives = { λ reply said. said ≡ variants.Reply reply };

    fn from(reply: Reply) -> Self {
        Said::Reply(reply)
    }
}

/// The answer that refuses the request with this id, or that memory ran out.
pub(crate) fn refused(alloc: Global, id: &Value, code: ErrorCode) -> Said
    requires { has_float (view id.now) ≡ false }
    ensures { IsRefused (view id.now) code (said_by result) }
{
    Said::Reply(x_documents::refused(alloc, id, code))
}
