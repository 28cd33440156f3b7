//! A law of first declarers: a function that does nothing and ensures it.
ghost use Rattle.std.specs.Prelude.{◌≡◌, ℕ, List, Option};
ghost use Rattle.x_trees.specs.Tree.{Definition};
ghost use Rattle.x_names.specs.Declarers.{FirstIs, first_declarer};
ghost use Rattle.x_names.specs.declared.names.Declarer.{Declarer};

/// A name has one first declarer, or none, and that is what the search for it finds.
pub fn one_first_declarer()
    ensures one { (definitions : List (Option Definition)) (name : List ℕ) (a b : Option Declarer)
        → FirstIs definitions name a → FirstIs definitions name b → a ≡ b }
    ensures found { (definitions : List (Option Definition)) (name : List ℕ)
        → FirstIs definitions name (first_declarer definitions name) }
{}
