//! Laws of the definitions that the contracts of this crate speak of, each a function that does nothing and
//! ensures the law.

ghost use Rattle.std.specs.Prelude.{◌≡◌, ℕ, List};
ghost use Rattle.x_positions.specs.Positions.{IsBetween, offset_of, position_of};
ghost use Rattle.x_positions.specs.declared.encoding.Encoding as encodings;

/// The position of a place leads back to it, where the place stands between two characters and not within a
/// line end.
pub fn positions_lead_back()
    ensures { (encoding : encodings.Encoding) (text : List ℕ) (at : ℕ) → IsBetween text at
        → offset_of encoding text (position_of encoding text at) ≡ at }
{}
