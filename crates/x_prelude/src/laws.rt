//! A law of names that a text lacks: a function that does nothing and ensures it.
ghost use Rattle.std.specs.Prelude.{◌≡◌, ℕ, List, Option};
ghost use Rattle.x_trees.specs.Tree.{Definition};
ghost use Rattle.x_names.specs.Declarers.{first_declarer};
ghost use Rattle.x_rules.specs.Mentioned.{is_unknown};
ghost use Rattle.x_rules.specs.Results.{Outcome, view_by};
ghost use Rattle.x_compile.specs.Known.{KnownText, known_names};
ghost use Rattle.x_prelude.specs.Lacking.{is_lacking};

/// A name is lacking exactly where what an item sees of it gives the word the fault 21, Unknown.
pub fn undeclared_law()
    ensures { (known : KnownText) (definitions : List (Option Definition)) (results : ℕ → Option Outcome)
        (item : ℕ) (name : List ℕ) → is_lacking (known_names known) (first_declarer definitions) name
        ≡ is_unknown (view_by (known_names known) definitions results item name) }
{}
