//! Tests of `x_session` and `x_script` by their public calls: what no contract says and no program shows.
#![tactic(auto)]

#[cfg(test)]
mod answers;
#[cfg(test)]
mod asserts;
#[cfg(test)]
mod definitions;
#[cfg(test)]
mod edits;
#[cfg(test)]
mod scripts;
#[cfg(test)]
mod sessions;
#[cfg(test)]
mod texts;
#[cfg(test)]
mod writers;
