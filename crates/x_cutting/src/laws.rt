//! Laws of items. Each is a function that does nothing and ensures the law.
ghost use Rattle.std.specs.Prelude.{◌≡◌, ◌↔◌, ℕ, List};
ghost use Rattle.x_text.specs.Edits.{Change};
ghost use Rattle.x_lex.specs.declared.kind.Kind.{Kind};
ghost use Rattle.x_lex.specs.Places.{Lexeme};
ghost use Rattle.x_lex.specs.TokenList.{TokenPatch, patched};
ghost use Rattle.x_cutting.specs.declared.cutting.item_entry.ItemEntry.{ItemEntry};
ghost use Rattle.x_cutting.specs.Cutting.{counts_from, roles_of};
ghost use Rattle.x_cutting.specs.Items.{IsCut};
ghost use Rattle.x_cutting.specs.ItemList.{ItemChange, counts};
ghost use Rattle.x_cutting.specs.Recut.{IsRelexed, IsItemPatch, AreOne};

/// Tokens are written as items in one way.
pub fn one_cut()
    ensures only { (tokens : List Lexeme) (cs ds : List ℕ) → IsCut tokens cs → IsCut tokens ds → cs ≡ ds }
    ensures some { (tokens : List Lexeme) → (cs : List ℕ) × IsCut tokens cs }
{}

/// How many tokens each item has is what is worked out of their braces and semicolons.
pub fn cut_by_roles()
    ensures { (tokens : List Lexeme) (cs : List ℕ)
        → IsCut tokens cs ↔ (cs ≡ counts_from 0 0 (roles_of tokens)) }
{}

/// What an edit does to the items of a text is determined by the items and the change.
pub fn one_recut<K>()
    ensures { (change : Change) (new : List ℕ) (ts : List (Kind × ℕ)) (items : List (ItemEntry K))
        (patch : TokenPatch) (p q : ItemChange K)
        → IsRelexed change new ts (counts items) patch
        → IsItemPatch change ts (patched ts patch) items p
        → IsItemPatch change ts (patched ts patch) items q → AreOne p q }
{}
