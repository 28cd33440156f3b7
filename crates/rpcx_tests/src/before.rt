//! What stands before a text: nothing.
use rpcx::BeforeArgs;
use std::alloc::Global;

/// No option that puts something before a text.
pub fn nothing(alloc: Global) -> BeforeArgs<'static> {
    BeforeArgs {
        known: Vec::new(alloc),
        c_types: false,
        foreign: false,
    }
}
