//! Tests of `x_text` by its public calls: what no contract says and no program shows.
#![tactic(auto)]

#[cfg(test)]
mod asserts;
#[cfg(test)]
mod faults;
#[cfg(test)]
mod readers;
#[cfg(test)]
mod sequences;
#[cfg(test)]
mod sources;
#[cfg(test)]
mod writers;
