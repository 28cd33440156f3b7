//! The items of a text as one value.
ghost use Rattle.std.specs.Prelude.{◌≡◌, ◌+◌, ◌<◌, ◌≤◌, ◌↔◌, ℕ, Some, IfOk, OnOk, OnErr, length};
ghost use Rattle.std.specs.Prelude.{option_copied, slice_get, slice_set};
ghost use Rattle.x_text.specs.declared.text.source.TheConstants.{MAX_TEXT};
ghost use Rattle.x_lists.specs.Seqs.{distance};
ghost use Rattle.x_cutting.specs.ItemList.{byte_counts, counts, kept, total, tokens_before, patched};
ghost use Rattle.x_cutting.specs.ItemList.{AreOfText, HasRoom, LiesAmong};

use super::{ItemEntry, ItemPatch};
use std::alloc::Global;
use std::marker::Model;
use x_text::{GapIter, MeasuredSeq, NoMemory, PatchedIter};

/// The items of a text, in order, each with how many tokens it has and what is kept with it.
///
/// They have a seat, the index behind those that were put in last: what is done near it takes few steps,
/// however long the text is.
#[derive(Debug, Drop)]
pub struct Items<K> {
    entries: MeasuredSeq<ItemEntry<K>>,
}

impl<K> Model for Items<K> {
    ghost use Rattle.x_lists.specs.Seqs.{Gapped};
    ghost use Rattle.x_cutting.specs.declared.cutting.item_entry.ItemEntry.{ItemEntry};
    ghost use Rattle.x_cutting.specs.ItemList.{counts, AreOfText};

    ghost Value = { Gapped (ItemEntry K) };

    ghost view = { λ items. items.entries };

    // So that each number fits.
    ghost invariant = { λ items. AreOfText (counts items.entries.list) };
}

impl<K: Drop> Items<K> {
    /// The items with these entries, with the seat behind the last of them. [`NoMemory`] where memory ran
    /// out.
    pub fn from_entries(alloc: Global, entries: Vec<ItemEntry<K>>) -> Result<Items<K>, NoMemory>
        requires of_text { AreOfText (counts entries.items) }
        ensures list { IfOk result (λ items. items.list ≡ entries.items) }
        ensures seat { IfOk result (λ items. items.seat ≡ length entries.items) }
    {
        let entries = MeasuredSeq::from_entries(alloc, entries)?;
        Ok(Items { entries })
    }

    /// How many items there are.
    pub fn len(&self) -> usize
        ensures count { result ≡ length self.now.list }
        ensures some { 0 < result }
        ensures small { result ≤ MAX_TEXT + 1 }
        ensures seat { self.now.seat ≤ result }
    {
        self.entries.len()
    }

    /// The item at `index`.
    pub fn get(&self, index: usize) -> Option<&ItemEntry<K>>
        ensures { option_copied result ≡ slice_get self.now.list index }
    {
        self.entries.get(index)
    }

    /// Goes over the items.
    pub fn iter(&self) -> GapIter<'_, ItemEntry<K>>
        ensures list { result ≡ self.now.list }
        ensures small { length result ≤ MAX_TEXT + 1 }
    {
        self.entries.iter()
    }

    /// Goes over the items that the patch will leave.
    pub fn iter_patched<'a>(&'a self, patch: &'a ItemPatch<K>) -> PatchedIter<'a, ItemEntry<K>>
        requires { LiesAmong self.now.list patch.now }
        ensures { result ≡ patched self.now.list patch.now }
    {
        self.entries.iter_patched(patch.entries(), 0)
    }

    /// The index of the first token of the item at `index`, or how many tokens there are.
    ///
    /// Looks at each item between it and the seat or the first one.
    pub fn first_token(&self, index: usize) -> usize
        requires { index ≤ length self.now.list }
        ensures { result ≡ tokens_before (counts self.now.list) index }
    {
        self.entries.start_of(index)
    }

    /// Makes room for the fresh items of the patch. After [`NoMemory`], too, all is as before but the room,
    /// which never shrinks.
    pub fn reserve(&mut self, patch: &ItemPatch<K>) -> Result<(), NoMemory>
        ensures list { self.new.list ≡ self.old.list }
        ensures seat { self.new.seat ≡ self.old.seat }
        ensures still { self.new.moved ≡ self.old.moved }
        ensures ok { OnOk result (HasRoom self.new patch.now) }
        ensures full { OnErr result (self.old.spare < length patch.now.fresh) }
        ensures room { self.old.spare ≤ self.new.spare }
    {
        self.entries.reserve(patch.len())
    }

    /// Carries the patch out in room that is there, and answers how many items that stay it moved.
    pub fn put(&mut self, patch: ItemPatch<K>) -> u64
        requires among { LiesAmong self.old.list patch }
        requires room { HasRoom self.old patch }
        requires of_text { AreOfText (counts (patched self.old.list patch)) }
        ensures list { self.new.list ≡ patched self.old.list patch }
        ensures seat { self.new.seat ≡ patch.at + length patch.fresh }
        ensures moved { result ≡ distance self.old.seat patch.at (patch.at + patch.removed) }
        ensures counted { self.new.moved ≡ self.old.moved + result }
        ensures room { self.old.spare + patch.removed ≤ self.new.spare + length patch.fresh }
    {
        self.entries.put(patch.into_entries())
    }

    /// Keeps this with the item at `index`, and gives back what was kept with it, with how many other items
    /// moved. It takes no memory.
    pub fn exchange(&mut self, index: usize, new: K) -> (K, u64)
        requires { index < length self.old.list }
        ensures out { slice_get (kept self.old.list) index ≡ Some result.0 }
        ensures counts { counts self.new.list ≡ counts self.old.list }
        ensures bytes { byte_counts self.new.list ≡ byte_counts self.old.list }
        ensures kept { kept self.new.list ≡ slice_set (kept self.old.list) index new }
        ensures seat { self.new.seat ≡ index + 1 }
        ensures moved { result.1 ≡ distance self.old.seat index (index + 1) }
        ensures counted { self.new.moved ≡ self.old.moved + result.1 }
        ensures room { self.old.spare ≤ self.new.spare }
    {
        let entry = ItemEntry::in_place_of(self.entries.get(index), new);
        let (out, moved) = self.entries.exchange(index, entry);
        (out.kept, moved)
    }

    /// How many items but the last have all their tokens among the first `limit` of the `end` that there are,
    /// and how many tokens those have.
    pub(crate) fn whole_within(&self, limit: usize, end: usize) -> (usize, usize)
        requires { end ≡ total (counts self.now.list) }
        ensures within { result.0 < length self.now.list }
        ensures tokens { result.1 ≡ tokens_before (counts self.now.list) result.0 }
        ensures before { result.1 ≤ limit }
        ensures next { result.0 + 1 < length self.now.list
            → limit < tokens_before (counts self.now.list) (result.0 + 1) }
    {
        self.entries
            .count_before(self.entries.len() - 1, limit.saturating_add(1), end)
    }

    /// Goes on from the first `from` items, which have `token` tokens, to the first that have `target` tokens
    /// or more, or that leave the last item alone.
    pub(crate) fn advance(&self, from: usize, token: usize, target: usize) -> (usize, usize)
        requires within { from < length self.now.list }
        requires tokens { token ≡ tokens_before (counts self.now.list) from }
        ensures forward { from ≤ result.0 }
        ensures within { result.0 < length self.now.list }
        ensures tokens { result.1 ≡ tokens_before (counts self.now.list) result.0 }
        ensures below { (j : ℕ) → from ≤ j → j < result.0 → tokens_before (counts self.now.list) j < target }
        ensures reached { result.0 + 1 < length self.now.list → target ≤ result.1 }
    {
        self.entries
            .advance(from, token, self.entries.len() - 1, target)
    }
}
