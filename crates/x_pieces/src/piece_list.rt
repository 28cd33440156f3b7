//! The items of a text as the generator sees them.
ghost use Rattle.std.specs.Prelude.{◌≡◌, ◌<◌, List, length, option_copied};
ghost use Rattle.x_pieces.specs.Pieces.{Part, lines_at, pieces_at};

use crate::Pieces;

/// What is generated of the items of a text, in order.
///
/// No call takes memory.
pub trait PieceList {
    /// For each item its lines that pass through and, where it has a definition and no fault, its pieces.
    ghost parts: { Self → List Part };

    /// How many items there are.
    fn count(&self) -> usize
        ensures { result ≡ length (parts self.now) };

    /// The lines of an item that pass through: without their `%`, each with a line feed.
    fn lines(&self, index: usize) -> &[u8]
        requires { index < length (parts self.now) }
        ensures { result.now ≡ lines_at (parts self.now) index };

    /// The pieces of an item, where it has a definition and no fault.
    fn pieces(&self, index: usize) -> Option<&Pieces>
        requires { index < length (parts self.now) }
        ensures { option_copied result ≡ pieces_at (parts self.now) index };
}
