//! What checking an item found.

ghost use Rattle.std.specs.Prelude.{◌≡◌, IfOk};
ghost use Rattle.x_rules.specs.RustViews.{view_class, view_meaning};
ghost use Rattle.x_rules.specs.KeptViews.{kept_class, kept_meaning, outcome_of};
ghost use Rattle.x_rules.specs.Results.{meaning_in};

use crate::fault::WordFault;
use crate::numbers::Numbers;
use crate::views::{Class, Meaning};
use smallvec::SmallVec;
use std::alloc::Global;
use std::marker::Model;
use x_text::NoMemory;

/// A class, with numbers that it shares.
#[derive(Debug, Drop)]
pub enum OwnedClass {
    Other,
    Signed,
    Unsigned,
    Boolean,
    Enumeration(Numbers),
}

impl OwnedClass {
    /// The class that is lent.
    pub fn of(class: Class) -> Result<OwnedClass, NoMemory>
        ensures { IfOk result (λ kept. kept_class kept ≡ view_class class.entry) }
    {
        Ok(match class {
            Class::Other => OwnedClass::Other,
            Class::Signed => OwnedClass::Signed,
            Class::Unsigned => OwnedClass::Unsigned,
            Class::Boolean => OwnedClass::Boolean,
            Class::Enumeration(numbers) => OwnedClass::Enumeration(numbers.share()?),
        })
    }

    fn lent(&self) -> Class<'_>
        ensures { view_class result ≡ kept_class self.now }
    {
        match self {
            OwnedClass::Other => Class::Other,
            OwnedClass::Signed => Class::Signed,
            OwnedClass::Unsigned => Class::Unsigned,
            OwnedClass::Boolean => Class::Boolean,
            OwnedClass::Enumeration(numbers) => Class::Enumeration(numbers),
        }
    }
}

/// What a name means.
#[derive(Debug, Default, Drop)]
pub enum OwnedMeaning {
    Constant(i128),
    Type { class: OwnedClass, height: u32 },
    Program,
    #[default]
    Bad,
}

impl OwnedMeaning {
    fn lent(&self) -> Meaning<'_>
        ensures { view_meaning result ≡ kept_meaning self.now }
    {
        match self {
            OwnedMeaning::Constant(number) => Meaning::Constant(*number),
            OwnedMeaning::Type { class, height } => Meaning::Type {
                class: class.lent(),
                height: *height,
            },
            OwnedMeaning::Program => Meaning::Program,
            OwnedMeaning::Bad => Meaning::Bad,
        }
    }
}

/// What the names mean that an item declares. Most items declare one, whose meaning lies in the value itself.
pub type KeptMeanings = SmallVec<OwnedMeaning, 1>;

/// What checking an item found: its faults, and what the names mean that it declares. Only a check makes one.
pub struct Checked {
    faults: Vec<WordFault>,
    meanings: KeptMeanings,
}

// By hand, so that who lets it go calls this, and need not prove anew how its parts are let go.
impl Drop for Checked {
    fn drop(self) {
        let Checked {
            faults: _,
            meanings: _,
        } = self;
    }
}

impl Model for Checked {
    ghost use Rattle.x_rules.specs.Results.{Outcome};
    ghost use Rattle.x_rules.specs.KeptViews.{outcome_of};

    ghost Value = { Outcome };

    ghost view = { λ c. outcome_of c.faults.items c.meanings.items };
}

impl Checked {
    pub(crate) fn new(faults: Vec<WordFault>, meanings: KeptMeanings) -> Checked
        ensures { result ≡ outcome_of faults.items meanings.items }
    {
        Checked { faults, meanings }
    }

    /// The faults of the item by the rules, by word and then by code, each once.
    pub fn faults(&self) -> &[WordFault]
        ensures { result.now ≡ self.now.faults }
    {
        &self.faults
    }

    /// What the name means that stands at the place, from 0, among those that the item declares. Those of an
    /// item with a fault are all bad.
    pub fn meaning(&self, place: usize) -> Meaning<'_>
        ensures { view_meaning result ≡ meaning_in self.now place }
    {
        match self.meanings.get(place) {
            Some(kept) => kept.lent(),
            None => Meaning::Bad,
        }
    }
}
