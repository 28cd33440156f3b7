//! A clash.

use std::borrow::CowSlice;
use x_taken::TakenAs;

/// A word of a text: its item, and its number among the words of that, both counted from 0.
#[derive(Clone, Copy, Debug, PartialEq, Eq)]
pub struct Place {
    pub item: usize,
    pub word: usize,
}

/// What has a name, too.
#[derive(Clone, Copy, Debug, PartialEq, Eq)]
pub enum Rival {
    /// C has it already.
    OfC(TakenAs),
    /// Another thing of the text, to whose name the word there leads.
    OfText(Place),
}

/// A name that clashes in C.
#[derive(Debug, Drop)]
pub struct Clash<'d> {
    /// The name, as C has it.
    pub name: CowSlice<'d, u8>,
    /// The word that leads to it.
    pub place: Place,
    /// What has it, too.
    pub rival: Rival,
}
