//! What an edit does to all that is kept of a text: first it is planned ([`plan_edit`]), for which memory may
//! be refused, and then it is carried out ([`carry_out`]), which takes none.
#![tactic(auto)]

mod checked_table;
mod counting;
mod fresh;
mod naming;
mod placing;
mod planned;
mod planning;
mod stale;

pub use naming::{NameChange, lacks};
pub use planned::PlannedResult;
pub use planning::{Plan, carry_out, plan_edit};
