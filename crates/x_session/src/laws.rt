//! Laws of the definitions that the contracts of this crate speak of, each a function that does nothing and
//! ensures the law.

ghost use Rattle.std.specs.Prelude.{◌≡◌, ℕ, List};
ghost use Rattle.x_text.specs.Edits.{Change, LiesWithin};
ghost use Rattle.x_lex.specs.declared.kind.Kind.{Kind};
ghost use Rattle.x_compile.specs.Compile.{Item, IsCompilation};
ghost use Rattle.x_compile.specs.Known.{KnownText};
ghost use Rattle.x_session.specs.Session.{Document};
ghost use Rattle.x_session.specs.Work.{IsWork};
ghost use Rattle.x_session.specs.declared.session.work.Work.{Work};

/// A text has one compilation, where the same is known before it: all that a session answers is a function of
/// its text and of what is known.
pub fn one_compilation()
    ensures { (known : KnownText) (text : List ℕ) (tokens others : List (Kind × ℕ)) (items more : List Item)
        → IsCompilation known text tokens items → IsCompilation known text others more
        → (tokens ≡ others) × (items ≡ more) }
{}

/// An edit's work is determined by the text, the edit and the two seats: so many tokens are fresh, so many
/// items recut and stale, and so many entries move; and where the seats are then.
pub fn one_work()
    ensures { (change : Change) (old d e : Document) (v w : Work) → LiesWithin change
        → IsWork change old d v → IsWork change old e w
        → (v ≡ w) × (d.token_seat ≡ e.token_seat) × (d.item_seat ≡ e.item_seat) }
{}
