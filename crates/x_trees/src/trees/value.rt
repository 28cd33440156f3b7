//! A number or the name of a constant.
use super::Spelling;

/// A number, or the name of a constant.
#[derive(Debug, Drop)]
pub enum Value {
    /// `12`
    Number(Spelling),
    /// `LIMIT`
    Named(Spelling),
}
