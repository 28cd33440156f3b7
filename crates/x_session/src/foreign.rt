//! A name that a text takes from C.

use crate::declared::Spot;

/// A name that a text takes from C, as nobody declares it.
#[derive(Clone, Copy, Debug)]
pub struct ForeignName<'s> {
    pub name: &'s [u8],
    /// Where the text uses it first.
    pub spot: Spot,
}
