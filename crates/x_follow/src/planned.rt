//! What is planned for an item that an edit makes stale.

use x_compile::CheckResult;

/// What checking an item finds that an edit makes stale.
#[derive(Drop)]
pub struct PlannedResult {
    /// The item, counted from 0 among those that the edit leaves.
    pub item: usize,
    pub found: Box<CheckResult>,
}
