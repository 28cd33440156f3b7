//! Laws of rules and results.

ghost use Rattle.std.specs.Prelude.{◌≡◌, ℕ, List, Option};
ghost use Rattle.x_trees.specs.Tree.{Definition};
ghost use Rattle.x_rules.specs.Views.{View};
ghost use Rattle.x_rules.specs.Rules.{AreFaults};
ghost use Rattle.x_rules.specs.Results.{KnownNames, Outcome, IsOutcome, AreResults};
ghost use Rattle.x_rules.specs.declared.fault.WordFault.{WordFault};

/// The rules and the views determine the faults of a definition.
pub fn one_list_of_faults()
    ensures { (d : Definition) (see : List ℕ → View) (fs gs : List WordFault)
        → AreFaults d see fs → AreFaults d see gs → fs ≡ gs }
{}

/// A definition and the views of its names determine what checking it gives.
pub fn one_outcome()
    ensures { (d : Definition) (views : List View) (a b : Outcome)
        → IsOutcome d views a → IsOutcome d views b → a ≡ b }
{}

/// The definitions of a text, and what is known of names before it, determine the results of all items.
pub fn one_list_of_results()
    ensures { (known : KnownNames) (definitions : List (Option Definition)) (rs ss : List (Option Outcome))
        → AreResults known definitions rs → AreResults known definitions ss → rs ≡ ss }
{}

/// A text has results of all items.
pub fn has_results()
    ensures { (known : KnownNames) (definitions : List (Option Definition))
        → (rs : List (Option Outcome)) × AreResults known definitions rs }
{}
