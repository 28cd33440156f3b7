//! Laws of definitions. Each is a function that does nothing and ensures the law.
ghost use Rattle.std.specs.Prelude.{◌≡◌, List};
ghost use Rattle.x_lex.specs.Places.{Lexeme};
ghost use Rattle.x_trees.specs.Tree.{Definition};
ghost use Rattle.x_trees.specs.Spell.{spell, KeepsLimits};
ghost use Rattle.x_item.specs.Parse.{Parse, IsParse};

/// No two definitions that keep the limits have one spelling: none of their bodies and lists of cases is
/// empty, and at most [`x_trees::MOST_INLINE`] inline bodies stand inside one another.
pub fn spell_law()
    ensures { (d e : Definition) → KeepsLimits d → KeepsLimits e → spell d ≡ spell e → d ≡ e }
{}

/// An item has one parse.
pub fn one_parse()
    ensures { (item : List Lexeme) (parse other : Parse)
        → IsParse item parse → IsParse item other → parse ≡ other }
{}
