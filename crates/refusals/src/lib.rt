//! How a test says which allocations are refused, and where. It asks for memory of sizes that nothing else
//! asks for: `sweeps/refuse.c`, loaded before the C library, knows them. Without it nothing is refused.
#![tactic(auto)]

ghost use Rattle.std.specs.Prelude.{◌≤◌};

use std::alloc::{AllocError, Global};

/// A sweep that has not ended by then never ends.
pub const MOST_TURNS: usize = 20_000;

/// The turn at which each allocation is refused.
pub const ALL: usize = 1;

/// The sizes of marks: to the first two twice a number is added.
const ONE: usize = 30_000_001;

const ONWARD: usize = 40_000_001;

const END: usize = 50_000_001;

/// Begins a turn of a sweep. In turns 0, 2, 4 and so on one allocation is refused: the first from here on,
/// the second, the third; in each turn after those that one and all that follow.
pub fn begin(alloc: Global, turn: usize) -> Result<(), AllocError>
    requires { turn ≤ 20000 }
{
    let first = if turn % 2 == 0 { ONE } else { ONWARD };
    let number = turn / 2 + 1;
    let _mark: Vec<u8> = Vec::with_capacity(alloc, first + 2 * number)?;
    Ok(())
}

/// Ends a turn: from here on nothing is refused. It tells whether something was, so a sweep ends where
/// nothing was.
pub fn end(alloc: Global) -> bool {
    let mark: Result<Vec<u8>, AllocError> = Vec::with_capacity(alloc, END);
    mark.is_err()
}
