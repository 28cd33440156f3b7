//! The pieces that are generated of a definition.

ghost use Rattle.std.specs.Prelude.{◌≡◌, ◌≤◌, ◌+◌, ◌++◌, length, IfOk};
ghost use Rattle.x_pieces.specs.Parting.{parted, InOrder};
ghost use Rattle.x_pieces.specs.Pieces.{piece};

use crate::Which;
use std::alloc::Global;
use std::marker::Model;
use x_text::NoMemory;

/// What is generated of a definition: its forward lines and its piece of each of the four texts, in one
/// buffer.
pub struct Pieces {
    text: Vec<u8>,
    ends: Ends,
}

// By hand, so that who lets it go calls this, and need not prove anew how its parts are let go.
impl Drop for Pieces {
    fn drop(self) {
        let Pieces { text: _, ends: _ } = self;
    }
}

/// Where parts of a text end that stand one behind another. The last one, of the table, ends where the text
/// does.
#[derive(Clone, Copy, Debug, Default, PartialEq, Eq)]
pub struct Ends {
    pub forward: usize,
    pub header: usize,
    pub routines: usize,
    pub stubs: usize,
}

impl Model for Pieces {
    ghost use Rattle.std.specs.Prelude.{length};
    ghost use Rattle.x_pieces.specs.Pieces.{Pieces as Parted};
    ghost use Rattle.x_pieces.specs.Parting.{parted, InOrder};

    ghost Value = { Parted };

    ghost view = { λ p. parted p.text.items p.ends };

    ghost invariant = { λ p. InOrder p.ends (length p.text.items) };
}

impl Pieces {
    /// The forward lines, which stand in the header before all pieces.
    pub fn forward(&self) -> &[u8]
        ensures { result.now ≡ self.now.forward }
    {
        &self.text[..self.ends.forward]
    }

    /// The piece of a text.
    pub fn piece(&self, which: Which) -> &[u8]
        ensures { result.now ≡ piece which self.now }
    {
        match which {
            Which::Header => &self.text[self.ends.forward..self.ends.header],
            Which::Routines => &self.text[self.ends.header..self.ends.routines],
            Which::Stubs => &self.text[self.ends.routines..self.ends.stubs],
            Which::Table => &self.text[self.ends.stubs..],
        }
    }

    /// The pieces that stand in a text, one behind another, of which it takes a copy.
    pub(crate) fn copied(alloc: Global, text: &[u8], ends: Ends) -> Result<Pieces, NoMemory>
        requires { InOrder ends (length text.now) }
        ensures { IfOk result (λ pieces. pieces ≡ parted text.now ends) }
    {
        Ok(Pieces {
            text: Vec::from_slice(alloc, text)?,
            ends,
        })
    }
}
