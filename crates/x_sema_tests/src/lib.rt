//! Tests of `x_schema` and `x_uses` by their public calls: what no contract says and no program shows.
#![tactic(auto)]

#[cfg(test)]
mod definitions;
#[cfg(test)]
mod edits;
#[cfg(test)]
mod parts;
