//! A text and its tokens, which follow its edits.
ghost use Rattle.x_lex.specs.Tiling.{AreTokens};

use std::io;
use std::marker::Model;
use std::time::Instant;
use x_lex::{Tokens, relex};
use x_text::{Edit, Meter, Source};

/// What one edit took.
#[derive(Clone, Copy)]
pub(crate) struct Step {
    pub nanoseconds: u64,
    pub lexed: u64,
    pub moved: u64,
}

/// A text and its tokens.
#[derive(Drop)]
pub(crate) struct Followed {
    text: Source,
    tokens: Tokens,
}

impl Model for Followed {
    ghost use Rattle.std.specs.Prelude.{ℕ, List};
    ghost use Rattle.x_lex.specs.Tiling.{AreTokens};

    ghost Value = { List ℕ };

    ghost view = { λ f. f.text };

    ghost invariant = { λ f. AreTokens f.text f.tokens.list };
}

impl Followed {
    pub(crate) fn new(text: Source, tokens: Tokens) -> Followed
        requires { AreTokens text tokens.list }
    {
        Followed { text, tokens }
    }

    /// Types another digit over the byte at the place. `None` where the text has no such place or memory ran
    /// out.
    pub(crate) fn type_over(&mut self, rt: &HostRuntime, at: usize) -> io::Result<Option<Step>> {
        let bytes = self.text.bytes();
        if at >= bytes.len() {
            return Ok(None);
        }
        let insert: &[u8] = if bytes[at] == b'2' { b"1" } else { b"2" };
        let edit = Edit {
            start: at,
            end: at + 1,
            insert,
        };
        let Ok(new) = self.text.edited(rt.alloc(), &edit) else {
            return Ok(None);
        };
        let mut meter = Meter::new();
        let start = Instant::now(rt)?;
        let Ok(patch) = relex(
            rt.alloc(),
            &self.tokens,
            &self.text,
            &edit,
            &new,
            &mut meter,
        ) else {
            return Ok(None);
        };
        if self.tokens.reserve(&patch).is_err() {
            return Ok(None);
        }
        let moved = self.tokens.put(patch);
        let taken = start.elapsed(rt);
        self.text = new;
        let nanoseconds = u64::try_from(taken?.as_nanos()).unwrap_or(u64::MAX);
        let lexed = meter.lexed();
        Ok(Some(Step {
            nanoseconds,
            lexed,
            moved,
        }))
    }
}
