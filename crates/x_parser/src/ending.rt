//! How a declaration ends.
ghost use Rattle.std.specs.Prelude.{◌≡◌};
ghost use Rattle.x_parser.specs.Symbols.{ending_mark};

use x_lex::Mark;

/// The mark behind a declaration.
#[derive(Clone, Copy, Debug, PartialEq, Eq)]
pub enum Ending {
    Semicolon,
    Parenthesis,
}

impl Ending {
    /// The mark itself.
    pub fn mark(self) -> Mark
        ensures { result ≡ ending_mark self }
    {
        match self {
            Ending::Semicolon => Mark::Semicolon,
            Ending::Parenthesis => Mark::CloseParenthesis,
        }
    }
}
