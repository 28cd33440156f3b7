//! The answers to requests that are carried out.

ghost use Rattle.std.specs.Prelude.{◌≡◌, ◌++◌, IfOk, codes, decimal, false, length};
ghost use Rattle.serde_json.specs.View.{view};
ghost use Rattle.serde_json.specs.Written.{compact_text, has_float};
ghost use Rattle.x_streams.specs.Writing.{Adds};
ghost use Rattle.x_contents.specs.Kept.{found_text};
ghost use Rattle.x_frames.specs.Answers.{answer_text, framed};

use serde_json::Value;
use std::alloc::Global;
use x_contents::Found;
use x_frames::answer_front;
use x_text::{NoMemory, Pen, Sink};
use x_value::add_number;

/// The answer to a request that is carried out: what stands in front of its result, and the result.
#[derive(Drop)]
pub struct Answer {
    front: Vec<u8>,
    found: Found,
    /// The number of its bytes.
    count: usize,
    ghost counted: { count ≡ length (front.items ++ found_text found ++ codes "}") },
}

impl Answer {
    /// The answer to the request with this id.
    ///
    /// # Errors
    ///
    /// [`NoMemory`] where there is no room for it, or it has more bytes than can be counted.
    pub(crate) fn new(alloc: Global, id: &Value, found: Found) -> Result<Answer, NoMemory>
        requires { has_float (view id.now) ≡ false }
        ensures { IfOk result (λ answer. answer.front.items ++ found_text answer.found ++ codes "}"
            ≡ answer_text (compact_text (view id.now)) (found_text found)) }
    {
        let front = answer_front(alloc, id)?;
        let before = front.len().checked_add(found.len()).ok_or(NoMemory)?;
        let count = before.checked_add(1).ok_or(NoMemory)?;
        Ok(Answer {
            front,
            found,
            count,
        })
    }

    /// Adds it with its header.
    pub(crate) fn add_to<S: Sink>(&self, pen: &mut Pen, sink: &mut S)
        ensures { Adds pen.old (S.state sink.old) pen.new (S.state sink.new)
            (framed (self.now.front.items ++ found_text self.now.found ++ codes "}")) }
    {
        add_header(self.count, pen, sink);
        self.add_text(pen, sink);
    }

    #[tactic(auto, using(x_text::proofs::Adding::three))]
    fn add_text<S: Sink>(&self, pen: &mut Pen, sink: &mut S)
        ensures { Adds pen.old (S.state sink.old) pen.new (S.state sink.new)
            (self.now.front.items ++ found_text self.now.found ++ codes "}") }
    {
        pen.add(&self.front, sink);
        self.found.add_to(pen, sink);
        pen.add(b"}", sink);
    }
}

/// Adds the header of a text of so many bytes.
#[tactic(auto, using(x_text::proofs::Adding::three))]
pub(crate) fn add_header<S: Sink>(count: usize, pen: &mut Pen, sink: &mut S)
    ensures { Adds pen.old (S.state sink.old) pen.new (S.state sink.new)
        (codes "Content-Length: " ++ decimal count ++ codes "\r\n\r\n") }
{
    pen.add(b"Content-Length: ", sink);
    add_number(count, pen, sink);
    pen.add(b"\r\n\r\n", sink);
}
