//! The numbers of an enum.

ghost use Rattle.std.specs.Prelude.{◌≡◌, IfOk};
ghost use Rattle.std.proofs.Common.{rules};
ghost use Rattle.std.specs.Cmp.Lexicographic.{pointwise};
ghost use Rattle.std.specs.Cmp.Rules.{comparing};
ghost use Rattle.std.specs.List.{list_any};
ghost use Rattle.std.specs.Ordering.{int_eq};
ghost use Rattle.x_rules.specs.Types.{number_set};

use std::alloc::Global;
use std::marker::Model;
use std::rc::RcSlice;
use x_text::NoMemory;

/// The numbers of an enum, each once. They lie in ascending order, and what shares them does not copy them.
#[derive(Debug, Drop)]
pub struct Numbers {
    list: RcSlice<i32>,
}

impl Model for Numbers {
    ghost use Rattle.std.specs.Prelude.{List, ℤ};
    ghost use Rattle.std.specs.Rc.{rc_slice_items};
    ghost use Rattle.x_rules.specs.NumberSets.{AreAscending};

    ghost Value = { List ℤ };

    ghost view = { λ numbers. rc_slice_items numbers.list };

    ghost invariant = { λ numbers. AreAscending (rc_slice_items numbers.list) };
}

impl Numbers {
    /// These numbers.
    pub(crate) fn of(numbers: Vec<i32>) -> Result<Numbers, NoMemory>
        ensures { IfOk result (λ set. set ≡ number_set numbers.items) }
    {
        let mut list = numbers;
        list.sort_unstable();
        list.dedup();
        Ok(Numbers {
            list: RcSlice::from_vec(list)?,
        })
    }

    /// The same numbers once more, which are not copied.
    pub(crate) fn share(&self) -> Result<Numbers, NoMemory>
        ensures { IfOk result (λ set. set ≡ self.now) }
    {
        Ok(Numbers {
            list: self.list.clone()?,
        })
    }

    /// Whether the number is among these.
    pub(crate) fn has(&self, number: i128) -> bool
        ensures { result ≡ list_any (int_eq number) self.now }
    {
        let list = self.list.as_slice();
        list.binary_search_by_key(&number, |known| i128::from(*known))
            .is_ok()
    }
}

impl PartialEq for Numbers {
    ghost eq = { pointwise int_eq };

    ghost laws = { Prim.search (comparing, rules) };

    fn eq(&self, other: &Numbers) -> bool {
        self.list == other.list
    }
}

impl Eq for Numbers {
    ghost laws = { Prim.search (comparing, rules) };
}
