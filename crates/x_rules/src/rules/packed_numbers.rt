//! Lists of numbers some of which are missing.

ghost use Rattle.std.specs.Prelude.{◌≡◌, [], ◌∷◌, ◌++◌, IfOk, OnOk, slice_get, option_and_then};
ghost use Rattle.x_rules.specs.Packed.{Grows, IsWithin, unpacked};

use std::alloc::Global;
use std::marker::Model;
use x_text::NoMemory;

/// A number that may be missing, in half the memory of an `Option<i128>`.
#[derive(Clone, Copy)]
pub enum Packed {
    Missing,
    Small(i64),
    /// It stands in this place of the large ones.
    Large(usize),
}

/// Numbers some of which are missing. An enum may have millions of names, and most numbers are small.
#[derive(Drop)]
pub struct PackedNumbers {
    list: Vec<Packed>,
    large: Vec<i128>,
}

impl Model for PackedNumbers {
    ghost use Rattle.std.specs.Prelude.{All, List, Option, map, ℤ};
    ghost use Rattle.x_rules.specs.Packed.{IsWithin, unpacked};

    ghost Value = { List (Option ℤ) };

    ghost view = { λ numbers. map (unpacked numbers.large.items) numbers.list.items };

    ghost invariant = { λ numbers. All (IsWithin numbers.large.items) numbers.list.items };
}

/// Packs a number, behind the large ones if it is one of them.
fn pack(large: &mut Vec<i128>, number: Option<i128>) -> Result<Packed, NoMemory>
    ensures within { IfOk result (λ packed. IsWithin large.new.items packed) }
    ensures number { IfOk result (λ packed. unpacked large.new.items packed ≡ number) }
    ensures grows { Grows large.old.items large.new.items }
{
    let Some(number) = number else {
        return Ok(Packed::Missing);
    };
    if let Ok(small) = i64::try_from(number) {
        return Ok(Packed::Small(small));
    }
    let place = large.len();
    large.push(number)?;
    Ok(Packed::Large(place))
}

impl PackedNumbers {
    /// No numbers.
    pub fn new(alloc: Global) -> PackedNumbers
        ensures { result ≡ [] }
    {
        PackedNumbers {
            list: Vec::new(alloc),
            large: Vec::new(alloc),
        }
    }

    /// Adds a number that may be missing.
    pub fn push(&mut self, number: Option<i128>) -> Result<(), NoMemory>
        ensures { OnOk result (self.new ≡ self.old ++ number ∷ []) }
    {
        let packed = pack(&mut self.large, number)?;
        self.list.push(packed)?;
        Ok(())
    }

    /// The number in a place.
    pub fn get(&self, place: usize) -> Option<i128>
        ensures { result ≡ option_and_then (λ n. n) (slice_get self.now place) }
    {
        match self.list.get(place)? {
            Packed::Missing => None,
            Packed::Small(number) => Some(i128::from(*number)),
            Packed::Large(place) => self.large.get(*place).copied(),
        }
    }
}
