//! Tests of `rpcx` by its public calls: what no contract says and no program shows.
#![tactic(auto)]

#[cfg(test)]
mod arguments;
#[cfg(test)]
mod asserts;
#[cfg(test)]
mod before;
#[cfg(test)]
mod outputs;
#[cfg(test)]
mod runs;
