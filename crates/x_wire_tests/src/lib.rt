//! Tests of `x_wire` by its public calls: what no contract says and no program shows.
#![tactic(auto)]

#[cfg(test)]
mod alone;
#[cfg(test)]
mod asserts;
#[cfg(test)]
mod records;
#[cfg(test)]
mod schemas;
#[cfg(test)]
mod streams;
#[cfg(test)]
mod values;
