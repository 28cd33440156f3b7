//! Which items an edit makes stale, and the check of these and no others ([`recheck`]).
#![tactic(auto)]

mod laws;
mod rechecking;

pub use laws::one_stale_list;
pub use rechecking::{CheckedItems, Rechecked, recheck};
