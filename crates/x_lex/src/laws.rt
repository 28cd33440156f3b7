//! Laws of the definitions that the contracts of this crate speak of, each a function that does nothing and
//! ensures the law.
ghost use Rattle.std.specs.Prelude.{◌≡◌, ◌↔◌, ◌<◌, ◌≤◌, ℕ, Bool, List, length, slice_index};
ghost use Rattle.x_text.specs.Edits.{Change, edited_by};
ghost use Rattle.x_lex.specs.declared.kind.Kind.{Kind};
ghost use Rattle.x_lex.specs.Word.{IsToken};
ghost use Rattle.x_lex.specs.Scan.{scan};
ghost use Rattle.x_lex.specs.Tiling.{AreTokens};
ghost use Rattle.x_lex.specs.TokenList.{TokenPatch};
ghost use Rattle.x_lex.specs.Relex.{IsMeeting, IsPatch};
ghost use Rattle.x_lex.specs.Places.{Lexeme, lexemes, TilesByPlace};

/// A text has one list of tokens.
pub fn one_tiling()
    ensures { (text : List ℕ) (ts us : List (Kind × ℕ)) → AreTokens text ts → AreTokens text us → ts ≡ us }
{}

/// A text has tokens.
pub fn has_tokens()
    ensures { (text : List ℕ) → (ts : List (Kind × ℕ)) × AreTokens text ts }
{}

/// The tokens of a text are those that follow one another from its start to its end, none of them empty, each
/// the word with the greatest end of those that begin at its place.
pub fn tokens_by_place()
    ensures same { (text : List ℕ) (ts : List (Kind × ℕ))
        → AreTokens text ts ↔ TilesByPlace text (lexemes text ts) }
    ensures only { (text : List ℕ) (ls : List Lexeme) → TilesByPlace text ls
        → (ts : List (Kind × ℕ)) × AreTokens text ts × (ls ≡ lexemes text ts) }
{}

/// The place from which the tokens of a text hold again behind an edit is determined by the change.
pub fn one_meeting()
    ensures { (change : Change) (ts vs us ws : List (Kind × ℕ)) (p q : ℕ)
        → AreTokens change.old ts → AreTokens change.old vs
        → AreTokens (edited_by change) us → AreTokens (edited_by change) ws
        → IsMeeting change ts us p → IsMeeting change vs ws q → p ≡ q }
{}

/// What an edit does to the tokens of a text is determined by the tokens and the change.
pub fn one_patch()
    ensures { (change : Change) (ts : List (Kind × ℕ)) (p q : TokenPatch)
        → IsPatch change ts p → IsPatch change ts q → p ≡ q }
{}

/// The token at a place is the one that the lexer works out there.
pub fn token_by_scan()
    ensures { (kind : Kind) (start : Bool) (rest : List ℕ) (n : ℕ) → 0 < length rest
        → IsToken kind start rest n ↔ (scan start rest ≡ (kind, n)) }
{}

/// A token that does not end its text is decided by its bytes and the one behind it.
pub fn token_by_bytes()
    ensures { (kind : Kind) (start : Bool) (xs ys : List ℕ) (n : ℕ) → IsToken kind start xs n
        → n < length xs → n < length ys
        → ((i : ℕ) → i ≤ n → slice_index xs i ≡ slice_index ys i) → IsToken kind start ys n }
{}
