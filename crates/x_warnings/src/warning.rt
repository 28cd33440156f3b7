//! A name that clashes in C, at its places in a text.

use std::borrow::CowSlice;
use x_session::Spot;
use x_taken::TakenAs;

/// What else has a name.
#[derive(Clone, Copy, Debug, PartialEq, Eq)]
pub enum OtherMeaning {
    /// C has it already.
    OfC(TakenAs),
    /// Another thing of the text, to whose name the word here leads.
    OfText(Option<Spot>),
}

/// A name that clashes in C.
#[derive(Debug, Drop)]
pub struct Warning<'s> {
    /// The name, as C has it.
    pub name: CowSlice<'s, u8>,
    /// The word of the text that leads to it.
    pub spot: Option<Spot>,
    /// What else has it.
    pub other: OtherMeaning,
}
