//! Which places stand in later branches of conditionals.
ghost use Rattle.std.specs.Prelude.{◌≡◌, ℕ, ◌+◌, ◌^◌, ◌<◌, nat_lt};
ghost use Rattle.x_directives.specs.Branches.{is_alternative};
ghost use Rattle.x_directives.specs.Turns.{role_of, deep_behind};

use crate::conditions::is_condition;
use crate::lines::{Lines, has_no_hash};
use crate::words::directive_word;
use std::alloc::Global;
use std::marker::Model;
use x_text::NoMemory;

/// What holds from a place on, up to the next turn.
#[derive(Clone, Copy, Debug)]
struct Turn {
    start: usize,
    /// Whether places there stand in a later branch.
    later: bool,
}

/// What a directive does to a conditional.
#[derive(Clone, Copy, Debug)]
enum Role {
    /// It begins one.
    Begins,
    /// It begins another branch of one.
    Alternative,
    /// It ends one.
    Ends,
}

/// Which places of a text stand in a branch of a conditional around them that is not its first one.
#[derive(Debug, Drop)]
pub struct LaterBranches {
    turns: Vec<Turn>,
}

impl Model for LaterBranches {
    ghost use Rattle.std.specs.Prelude.{List};
    ghost use Rattle.std.specs.List.Sorted.{IsNonDecreasingBy};
    ghost use Rattle.x_directives.specs.declared.branches.Turn.{Turn};

    ghost Value = { List Turn };

    ghost view = { λ b. b.turns.items };

    ghost invariant = { λ b. IsNonDecreasingBy (λ t. t.start) b.turns.items };
}

impl LaterBranches {
    ghost use Rattle.std.specs.Prelude.{[], IfOk, IsTrue};
    ghost use Rattle.x_directives.specs.Branches.{said_of, SayBranchesOf};

    /// Those of a text. A place on the line of a directive is behind that directive.
    ///
    /// # Errors
    /// Memory ran out.
    pub fn of(alloc: Global, text: &[u8]) -> Result<LaterBranches, NoMemory>
        ensures { IfOk result (λ branches. SayBranchesOf branches text.now) }
    {
        let mut turns = Vec::new(alloc);
        if has_no_hash(text) {
            return Ok(LaterBranches { turns });
        }
        let mut deep = 0;
        let mut lines = Lines::of(text);
        'lines: while let Some(line) = lines.next_line() {
            if let Some(role) = role_of(directive_word(&line)) {
                turns.push(Turn {
                    start: line.start,
                    later: is_later_behind(role, deep),
                })?;
                deep = deep_behind(role, deep);
            }
        }
        Ok(LaterBranches { turns })
    }

    /// Whether the text has no conditional at all.
    pub fn is_empty(&self) -> bool
        ensures { IsTrue result → self.now ≡ [] }
    {
        self.turns.is_empty()
    }

    /// Whether the place stands in such a branch.
    pub fn has(&self, place: usize) -> bool
        ensures { result ≡ said_of self.now place }
    {
        let count = self.turns.partition_point(|turn| turn.start <= place);
        count > 0 && self.turns[count - 1].later
    }
}

/// What the directive of the word does to a conditional.
#[tactic(auto, unfolding(crate::specs::Turns::role_of))]
fn role_of(word: &[u8]) -> Option<Role>
    ensures { result ≡ role_of word.now }
{
    if word == b"endif".as_slice() {
        Some(Role::Ends)
    } else if is_condition(word) {
        Some(Role::Begins)
    } else if is_alternative(word) {
        Some(Role::Alternative)
    } else {
        None
    }
}

/// Whether another branch begins with the word.
fn is_alternative(word: &[u8]) -> bool
    ensures { result ≡ is_alternative word.now }
{
    word == b"else".as_slice()
        || word == b"elif".as_slice()
        || word == b"elifdef".as_slice()
        || word == b"elifndef".as_slice()
}

/// Whether a later branch is around behind a directive.
#[tactic(auto, unfolding(crate::specs::Turns::deep_behind))]
fn is_later_behind(role: Role, deep: usize) -> bool
    ensures { result ≡ nat_lt 0 (deep_behind role deep) }
{
    match role {
        Role::Begins => deep > 0,
        Role::Alternative => true,
        Role::Ends => deep > 1,
    }
}

/// How many of the conditionals around have to end until no later branch is around, behind a directive.
#[tactic(auto, unfolding(crate::specs::Turns::deep_behind))]
fn deep_behind(role: Role, deep: usize) -> usize
    requires { deep + 1 < 2 ^ 64 }
    ensures { result ≡ deep_behind role deep }
{
    match role {
        Role::Begins if deep > 0 => deep + 1,
        Role::Alternative if deep == 0 => 1,
        Role::Begins | Role::Alternative => deep,
        Role::Ends => deep.saturating_sub(1),
    }
}
