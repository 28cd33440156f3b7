//! What is generated of checked definitions.

ghost use Rattle.std.specs.Prelude.{◌≡◌, IfOk};
ghost use Rattle.x_trees.specs.View.{view_definition};
ghost use Rattle.x_pieces.specs.Rendering.{pieces_of};

use std::alloc::Global;
use x_pieces::{PieceMaker, Pieces};
use x_rules::Checked;
use x_text::NoMemory;
use x_trees::Definition;

/// Makes the pieces of definitions, one after another, in memory that is used again.
#[derive(Drop)]
pub struct Renderer {
    maker: PieceMaker,
}

impl Renderer {
    /// A renderer that has made nothing yet.
    pub fn new(alloc: Global) -> Renderer {
        Renderer {
            maker: PieceMaker::new(alloc),
        }
    }

    /// What is generated of a definition, which checking found without a fault.
    pub fn render(
        &mut self,
        definition: &Definition,
        _checked: &Checked,
    ) -> Result<Pieces, NoMemory>
        ensures { IfOk result (λ pieces. pieces ≡ pieces_of (view_definition definition.now)) }
    {
        self.maker.make(definition)
    }
}

/// What is generated of a definition, which checking found without a fault. Who has many takes a
/// [`Renderer`].
pub fn render(alloc: Global, definition: &Definition, checked: &Checked) -> Result<Pieces, NoMemory>
    ensures { IfOk result (λ pieces. pieces ≡ pieces_of (view_definition definition.now)) }
{
    Renderer::new(alloc).render(definition, checked)
}
