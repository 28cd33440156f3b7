//! The items that wait for a check.

ghost use Rattle.std.specs.Prelude.{◌≡◌, ◌<◌, ℕ, IfSome, IfNone, OnOk, true, false};
ghost use Rattle.x_recheck.specs.inside.Deciding.{is_waiting};

use std::alloc::Global;
use std::collections::BTreeSet;
use x_text::NoMemory;

/// Items that wait, each once.
#[derive(Drop)]
pub struct Queue {
    pub items: BTreeSet<usize>,
}

impl Queue {
    /// No item waits.
    pub fn new(alloc: Global) -> Queue
        ensures { (k : ℕ) → is_waiting result k ≡ false }
    {
        Queue {
            items: BTreeSet::new(alloc),
        }
    }

    /// Has an item wait.
    pub fn insert(&mut self, item: usize) -> Result<(), NoMemory>
        ensures waits { OnOk result (is_waiting self.new item ≡ true) }
        ensures kept { OnOk result ((k : ℕ) → is_waiting self.old k ≡ true → is_waiting self.new k ≡ true) }
        ensures others { OnOk result ((k : ℕ) → is_waiting self.new k ≡ true → (k ≡ item → ⊥)
            → is_waiting self.old k ≡ true) }
    {
        self.items.insert(item)?;
        Ok(())
    }

    /// Takes the first item out.
    pub fn pop_first(&mut self) -> Option<usize>
        ensures waited { IfSome result (λ k. is_waiting self.old k ≡ true) }
        ensures least { IfSome result (λ k. (j : ℕ) → is_waiting self.old j ≡ true → j < k → ⊥) }
        ensures kept { IfSome result (λ k. (j : ℕ) → (j ≡ k → ⊥)
            → is_waiting self.new j ≡ is_waiting self.old j) }
        ensures out { IfSome result (λ k. is_waiting self.new k ≡ false) }
        ensures none { IfNone result ((j : ℕ) → is_waiting self.old j ≡ false) }
    {
        self.items.pop_first()
    }
}
