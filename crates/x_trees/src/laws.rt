//! A law of glosses: a function that does nothing and ensures it.
ghost use Rattle.std.specs.Prelude.{◌≡◌, map};
ghost use Rattle.x_trees.specs.Tree.{Definition};
ghost use Rattle.x_trees.specs.Gloss.{gloss};
ghost use Rattle.x_trees.specs.Spell.{spell};

/// The words of a definition's gloss are its spelling.
pub fn gloss_law()
    ensures { (d : Definition) → map (λ g. g.word) (gloss d) ≡ spell d }
{}
