//! A name that a text gives to C.

ghost use Rattle.std.specs.Prelude.{◌≡◌, ◌∷◌, [], ◌++◌, drop, map, None, OnOk, IfOk};
ghost use Rattle.std.specs.Cow.{cow_slice_items};
ghost use Rattle.x_pieces.specs.Parts.{together};
ghost use Rattle.x_clash.specs.Given.{given};
ghost use Rattle.x_clash.specs.Views.{view_all, view_sort};

use std::alloc::Global;
use std::borrow::CowSlice;
use x_text::NoMemory;

/// What a name is in C (C11, 6.2.3 and 6.10.3).
#[derive(Clone, Copy, Debug)]
pub enum Sort<'d> {
    /// A macro, which stands for this text.
    Macro(&'d [u8]),
    /// A type with a tag, at file scope.
    Tagged,
    /// A function.
    Function,
    /// Another name at file scope.
    Plain,
    /// A member of a struct or a union.
    Member,
}

/// A name that a definition gives to C.
#[derive(Debug, Drop)]
pub struct Given<'d> {
    pub name: CowSlice<'d, u8>,
    /// The word that leads to it, counted from 0 among those of the definition.
    pub word: usize,
    pub sort: Sort<'d>,
    /// The word of another member of the same struct that has the name, too.
    pub twin: Option<usize>,
}

/// Adds a name.
pub fn add<'d>(
    list: &mut Vec<Given<'d>>,
    name: CowSlice<'d, u8>,
    word: usize,
    sort: Sort<'d>,
) -> Result<(), NoMemory>
    ensures { OnOk result (view_all list.new.items ≡ view_all list.old.items
        ++ given (cow_slice_items name.entry) word (view_sort sort.entry) ∷ []) }
{
    list.push(Given {
        name,
        word,
        sort,
        twin: None,
    })?;
    Ok(())
}

/// Adds a name that is spelled in the definition.
pub fn add_spelled<'d>(
    list: &mut Vec<Given<'d>>,
    name: &'d [u8],
    word: usize,
    sort: Sort<'d>,
) -> Result<(), NoMemory>
    ensures { OnOk result (view_all list.new.items ≡ view_all list.old.items
        ++ given name.now word (view_sort sort.entry) ∷ []) }
{
    add(list, CowSlice::Borrowed(name), word, sort)
}

/// Adds a name that is made of these parts, one after another.
pub fn add_made<'d>(
    alloc: Global,
    list: &mut Vec<Given<'d>>,
    parts: &[&[u8]],
    word: usize,
    sort: Sort<'d>,
) -> Result<(), NoMemory>
    ensures { OnOk result (view_all list.new.items ≡ view_all list.old.items
        ++ given (together (map (λ p. p.now) parts.now)) word (view_sort sort.entry) ∷ []) }
{
    let name = joined(alloc, parts)?;
    add(list, CowSlice::Owned(name), word, sort)
}

/// The parts, one after another.
pub fn joined(alloc: Global, parts: &[&[u8]]) -> Result<Vec<u8>, NoMemory>
    ensures { IfOk result (λ text. text.items ≡ together (map (λ p. p.now) parts.now)) }
{
    let mut text = Vec::new(alloc);
    for part in parts {
        text.extend_from_slice(part)?;
    }
    Ok(text)
}

/// The same name. Where it is spelled in the definition it is lent by that.
pub fn kept<'d>(alloc: Global, name: &CowSlice<'d, u8>) -> Result<CowSlice<'d, u8>, NoMemory>
    ensures { IfOk result (λ kept. cow_slice_items kept ≡ cow_slice_items name.now) }
{
    match name {
        CowSlice::Borrowed(spelled) => Ok(CowSlice::Borrowed(*spelled)),
        CowSlice::Owned(made) => Ok(CowSlice::Owned(Vec::from_slice(alloc, made)?)),
    }
}

/// All but the first of a list.
pub fn others<T>(list: &[T]) -> &[T]
    ensures { result.now ≡ drop 1 list.now }
{
    match list.split_first() {
        Some((_, others)) => others,
        None => list,
    }
}
