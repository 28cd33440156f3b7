//! Laws of stale items.

ghost use Rattle.std.specs.Prelude.{◌≡◌, ℕ, List, Option};
ghost use Rattle.x_rules.specs.Results.{Outcome};
ghost use Rattle.x_recheck.specs.Editing.{TextEdit};
ghost use Rattle.x_recheck.specs.Staleness.{AreStale};

/// An edit makes one list of items stale.
pub fn one_stale_list()
    ensures { (e : TextEdit) (after : List (Option Outcome)) (ks ls : List ℕ) → AreStale e after ks
        → AreStale e after ls → ks ≡ ls }
{}
