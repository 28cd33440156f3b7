//! Tests of `x_lex` and `x_item` by their public calls: what no contract says and no program shows.
#![tactic(auto)]

#[cfg(test)]
mod parsing;
#[cfg(test)]
mod recutting;
#[cfg(test)]
mod relexing;
#[cfg(test)]
mod single;
