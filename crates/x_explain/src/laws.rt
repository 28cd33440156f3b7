//! A law of the definitions that the contracts of this crate speak of: a function that does nothing and
//! ensures it.
ghost use Rattle.std.specs.Prelude.{ℕ};
ghost use Rattle.x_explain.specs.Columns.{IsUnderWord};
ghost use Rattle.x_explain.specs.Excerpts.{Excerpt};

/// The mark of an explained fault stands under the first byte of its word, wherever tabs stop.
pub fn mark_under_word()
    ensures { (line : ℕ) (e : Excerpt) → IsUnderWord line e }
{}
