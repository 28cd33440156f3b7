//! What an item sees of a name.

ghost use Rattle.std.specs.Prelude.{◌≡◌, option_map};
ghost use Rattle.x_rules.specs.RustViews.{view_view, view_meaning};
ghost use Rattle.x_rules.specs.KeptViews.{lent_outcome};
ghost use Rattle.x_rules.specs.Results.{beforehand_meaning, view_named};

use crate::checked::Checked;
use crate::numbers::Numbers;
use x_names::{Declarer, is_beforehand};
use x_trees::NameKind;

/// The greatest height of a type. One that holds no other has the height 1, and any other 1 more than the
/// highest that it holds.
pub const MOST_HEIGHT: u32 = 32;

/// What a type is as the discriminant of a union.
#[derive(Clone, Copy, Debug, PartialEq, Eq)]
pub enum Class<'v> {
    /// It cannot be one.
    Other,
    /// It has the values of `int`: from -2^31 to 2^31-1.
    Signed,
    /// It has the values of `unsigned int`: from 0 to 2^32-1.
    Unsigned,
    /// It has the values of `bool`: 0 and 1.
    Boolean,
    /// It has the numbers of an enum.
    Enumeration(&'v Numbers),
}

/// What a name means.
#[derive(Clone, Copy, Debug, PartialEq, Eq)]
pub enum Meaning<'v> {
    /// A constant or an enumerator: its number, from -2^63 to 2^64-1.
    Constant(i128),
    /// A type.
    Type {
        /// What it is as the discriminant of a union.
        class: Class<'v>,
        /// 1 more than the greatest height of the named and inline types that it holds, at most
        /// [`MOST_HEIGHT`].
        height: u32,
    },
    /// A program.
    Program,
    /// Nothing that can be used: the item that declares the name has a fault.
    Bad,
}

/// What an item sees of a name: who declares it first (RFC 4506, section 6.4), and as what.
///
/// A view lends the numbers of an enum, so however many items see it, they are not copied.
#[derive(Clone, Copy, Debug, PartialEq, Eq)]
pub enum View<'v> {
    /// Nobody declares it.
    Undeclared,
    /// An earlier item declares it, or it is `TRUE` or `FALSE`.
    Earlier {
        /// What it is declared as.
        kind: NameKind,
        /// Whether it is the name of an inline type.
        lifted: bool,
        /// What it means.
        meaning: Meaning<'v>,
    },
    /// The item itself declares it.
    Own {
        /// What it is declared as.
        kind: NameKind,
        /// Whether it is the name of an inline type.
        lifted: bool,
    },
    /// A later item declares it.
    Later {
        /// What it is declared as.
        kind: NameKind,
        /// Whether it is the name of an inline type.
        lifted: bool,
    },
}

/// What a constant means that is declared beforehand: 1 for `TRUE`, 0 for `FALSE`.
fn beforehand_meaning(name: &[u8]) -> Meaning<'static>
    ensures { view_meaning result ≡ beforehand_meaning name.now }
{
    match name {
        b"TRUE" => Meaning::Constant(1),
        _ => Meaning::Constant(0),
    }
}

impl<'v> View<'v> {
    /// What an item sees of a name. `known` is what is known of it before the text, which comes before all
    /// that the text says. `first` is the name's first declarer, and `declaring` what checking that item
    /// found, which is read where the item stands earlier; without it the name is bad.
    pub fn of(
        item: usize,
        name: &[u8],
        known: Option<View<'v>>,
        first: Option<Declarer>,
        declaring: Option<&'v Checked>,
    ) -> View<'v>
        ensures { view_view result
            ≡ view_named item name.now (option_map view_view known.entry) first
            (lent_outcome declaring.entry) }
    {
        if is_beforehand(name) {
            return View::Earlier {
                kind: NameKind::Constant,
                lifted: false,
                meaning: beforehand_meaning(name),
            };
        }
        if let Some(view) = known {
            return view;
        }
        let Some(
            Declarer {
                item: declarer,
                place,
                kind,
                lifted,
                ..
            },
        ) = first
        else {
            return View::Undeclared;
        };
        if declarer < item {
            View::Earlier {
                kind,
                lifted,
                meaning: match declaring {
                    Some(checked) => checked.meaning(place),
                    None => Meaning::Bad,
                },
            }
        } else if item < declarer {
            View::Later { kind, lifted }
        } else {
            View::Own { kind, lifted }
        }
    }
}
