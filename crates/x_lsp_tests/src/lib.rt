//! Tests of `x_documents` and `x_lsp` by their public calls: what no contract says and no program shows.
#![tactic(auto)]

#[cfg(test)]
mod calls;
#[cfg(test)]
mod memory;
#[cfg(test)]
mod requests;
#[cfg(test)]
mod said;
#[cfg(test)]
mod setting;
