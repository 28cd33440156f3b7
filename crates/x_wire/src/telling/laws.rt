//! Laws of what is told.
ghost use Rattle.std.specs.Prelude.{◌≡◌, ℕ, List};
ghost use Rattle.x_schema.specs.Schema.{Schema};
ghost use Rattle.x_wire.specs.MessageTexts.{Told};
ghost use Rattle.x_wire.specs.StreamTexts.{IsStreamText, IsTextOf};

/// Messages one behind another have one text at the most, and so has a stream: so what stands in a sink after
/// a fault is a front of the one text.
pub fn one_text()
    ensures messages { (s : Schema) (messages : List (List ℕ)) (t u : Told) → IsTextOf s messages t
        → IsTextOf s messages u → t ≡ u }
    ensures stream { (s : Schema) (stream : List ℕ) (t u : Told) → IsStreamText s stream t
        → IsStreamText s stream u → t ≡ u }
{}
