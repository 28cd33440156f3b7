//! What an edit does to the items of a text.
ghost use Rattle.std.specs.Prelude.{◌≡◌, ◌<◌, ◌↔◌, [], Some, IsTrue, length};
ghost use Rattle.std.specs.Prelude.{option_copied, slice_get, slice_set};
ghost use Rattle.x_cutting.specs.ItemList.{byte_counts, counts, kept};

use super::ItemEntry;
use std::marker::Model;
use x_text::SeqPatch;

/// Fresh items that take the place of some old ones, as [`crate::recut`] finds them.
#[derive(Debug, Drop)]
pub struct ItemPatch<K> {
    entries: SeqPatch<ItemEntry<K>>,
}

impl<K> Model for ItemPatch<K> {
    ghost use Rattle.x_cutting.specs.ItemList.{ItemChange};

    ghost Value = { ItemChange K };

    ghost view = { λ patch. patch.entries };
}

impl<K> ItemPatch<K> {
    /// The fresh items of these entries, the first of which starts at the token `start`, in place of
    /// `removed` old ones from index `at` on.
    pub(crate) fn new(
        at: usize,
        removed: usize,
        start: usize,
        fresh: Vec<ItemEntry<K>>,
    ) -> ItemPatch<K>
        ensures { result ≡ record { at = at; removed = removed; start = start; fresh = fresh.items } }
    {
        ItemPatch {
            entries: SeqPatch::new(at, removed, start, fresh),
        }
    }

    /// How many items end before the edit: the index at which old ones go and fresh ones come.
    pub fn at(&self) -> usize
        ensures { result ≡ self.now.at }
    {
        self.entries.at()
    }

    /// How many old items go.
    pub fn removed(&self) -> usize
        ensures { result ≡ self.now.removed }
    {
        self.entries.removed()
    }

    /// The index of the first token of the first fresh item, each of the others starting where the one before
    /// it ends.
    pub fn start(&self) -> usize
        ensures { result ≡ self.now.start }
    {
        self.entries.start()
    }

    /// How many fresh items there are.
    pub fn len(&self) -> usize
        ensures { result ≡ length self.now.fresh }
    {
        self.entries.len()
    }

    /// Whether there is no fresh item.
    pub fn is_empty(&self) -> bool
        ensures { IsTrue result ↔ (self.now.fresh ≡ []) }
    {
        self.entries.is_empty()
    }

    /// The fresh item at `index`, counted from the first of them.
    pub fn get(&self, index: usize) -> Option<&ItemEntry<K>>
        ensures { option_copied result ≡ slice_get self.now.fresh index }
    {
        self.entries.get(index)
    }

    /// Keeps this with the fresh item at `index`, counted from the first of them, and gives back what was
    /// kept with it.
    pub fn exchange(&mut self, index: usize, new: K) -> K
        requires { index < length self.old.fresh }
        ensures out { slice_get (kept self.old.fresh) index ≡ Some result }
        ensures counts { counts self.new.fresh ≡ counts self.old.fresh }
        ensures bytes { byte_counts self.new.fresh ≡ byte_counts self.old.fresh }
        ensures kept { kept self.new.fresh ≡ slice_set (kept self.old.fresh) index new }
        ensures others { self.new ≡ record self.old { fresh = self.new.fresh } }
    {
        let entry = ItemEntry::in_place_of(self.entries.get(index), new);
        self.entries.exchange(index, entry).kept
    }

    /// Says how many bytes the fresh item at `index` has, counted from the first of them, and keeps this with
    /// it. Gives back what was kept with it.
    pub fn fill(&mut self, index: usize, bytes: u32, new: K) -> K
        requires { index < length self.old.fresh }
        ensures out { slice_get (kept self.old.fresh) index ≡ Some result }
        ensures counts { counts self.new.fresh ≡ counts self.old.fresh }
        ensures bytes { byte_counts self.new.fresh ≡ slice_set (byte_counts self.old.fresh) index bytes }
        ensures kept { kept self.new.fresh ≡ slice_set (kept self.old.fresh) index new }
        ensures others { self.new ≡ record self.old { fresh = self.new.fresh } }
    {
        let mut filled = ItemEntry::in_place_of(self.entries.get(index), new);
        filled.bytes = bytes;
        self.entries.exchange(index, filled).kept
    }

    /// The entries of the fresh items, and what they take the place of, as they are kept.
    pub(crate) fn entries(&self) -> &SeqPatch<ItemEntry<K>>
        ensures { result.now ≡ self.now }
    {
        &self.entries
    }

    /// The entries of the fresh items, and what they take the place of.
    pub(crate) fn into_entries(self) -> SeqPatch<ItemEntry<K>>
        ensures { result ≡ self }
    {
        self.entries
    }
}
