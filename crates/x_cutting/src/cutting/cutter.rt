//! Where items end.
ghost use Rattle.std.specs.Prelude.{◌≡◌, ◌<◌, ◌≤◌, ◌+◌, ◌-◌};
ghost use Rattle.x_cutting.specs.Items.{is_punct};
ghost use Rattle.x_cutting.specs.Cutting.{role_by, depth_after, ends_at};

use std::marker::Model;
use x_lex::Kind;

/// Finds where items end, token by token. It is seen as the depth of the braces of the item's tokens so far.
#[derive(Debug, Drop)]
pub(crate) struct Cutter {
    depth: usize,
}

impl Model for Cutter {
    ghost use Rattle.std.specs.Prelude.{ℕ};

    ghost Value = { ℕ };

    ghost view = { λ c. c.depth };
}

impl Cutter {
    /// A cutter at the start of an item.
    pub(crate) fn new() -> Cutter
        ensures { result ≡ 0 }
    {
        Cutter { depth: 0 }
    }

    /// Whether the token of this kind and these bytes ends the item. It goes on behind the token, and behind
    /// an end it is at the start of an item.
    pub(crate) fn ends(&mut self, kind: Kind, text: &[u8]) -> bool
        requires { self.old < usize.MAX }
        ensures ends { result ≡ ends_at self.old (role_by kind text.now) }
        ensures moved { self.new ≡ depth_after self.old (role_by kind text.now) }
    {
        if is_punct(kind, text, b'{') {
            self.depth += 1;
            return false;
        }
        if is_punct(kind, text, b'}') {
            self.depth = depth_closed(self.depth);
            return false;
        }
        if is_punct(kind, text, b';') {
            return self.depth == 0;
        }
        false
    }
}

/// The depth after a closing brace: at 0 it stays 0.
fn depth_closed(depth: usize) -> usize
    ensures { result ≡ depth - 1 }
{
    depth.saturating_sub(1)
}

/// Whether the token is this mark of punctuation.
fn is_punct(kind: Kind, text: &[u8], byte: u8) -> bool
    ensures { result ≡ is_punct byte kind text.now }
{
    kind == Kind::Punct && matches!(text, [only] if *only == byte)
}
