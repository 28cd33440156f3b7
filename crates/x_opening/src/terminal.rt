//! How a terminal shows faults.

use crate::opening::FaultStyle;
use std::env::{self, VarError};
use std::io::IsTerminal;

/// How faults are reported where nothing else is asked for: one a line, or on a terminal explained.
pub fn usual_style(rt: &HostRuntime) -> FaultStyle {
    if rt.stderr().is_terminal() {
        explained_style(rt)
    } else {
        FaultStyle::Plain
    }
}

/// How they are explained: a terminal shows colours unless NO_COLOR is set (no-color.org), or it is `dumb`.
pub fn explained_style(rt: &HostRuntime) -> FaultStyle {
    if rt.stderr().is_terminal() && is_unset(rt, "NO_COLOR") && !is_dumb(rt) {
        FaultStyle::Coloured
    } else {
        FaultStyle::Explained
    }
}

/// Whether a variable of the environment is not set, or empty.
fn is_unset(rt: &HostRuntime, name: &str) -> bool {
    match env::var(rt, name) {
        Ok(value) => value.is_empty(),
        Err(VarError::NotPresent) => true,
        Err(_) => false,
    }
}

/// Whether the terminal takes no orders.
fn is_dumb(rt: &HostRuntime) -> bool {
    match env::var(rt, "TERM") {
        Ok(value) => value.as_str() == "dumb",
        Err(_) => false,
    }
}
