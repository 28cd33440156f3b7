//! A list of entries that each have a length.
ghost use Rattle.std.specs.Prelude.{◌≡◌, ◌+◌, ◌^◌, ◌<◌, ◌≤◌, ◌↔◌, ℕ, [], Some, IsTrue, IfOk, IsOk, OnOk};
ghost use Rattle.std.specs.Prelude.{OnErr, length, drop};
ghost use Rattle.std.specs.Prelude.{option_copied, slice_get, slice_set};
ghost use Rattle.x_lists.specs.Seqs.{distance};
ghost use Rattle.x_lists.specs.Lengths.{total_length, length_before, IsCountBefore, patched, LiesAmong};
ghost use Rattle.x_lists.specs.Lengths.{HasRoom};

use super::measured::total_length;
use crate::{GapIter, GapSeq, Measured, NoMemory, PatchedIter, Seq, SeqPatch};
use std::alloc::Global;
use std::marker::Model;

/// Entries that each have a length, in order: where one starts follows from the lengths of those before it.
///
/// They have a seat, the index behind those that were put in last: what is done near it takes few steps,
/// however long the list is.
#[derive(Debug, Drop)]
pub struct MeasuredSeq<T: Measured> {
    entries: GapSeq<T>,
    /// Where the entry behind the seat starts.
    place: usize,
}

impl<T: Measured> Model for MeasuredSeq<T> {
    ghost use Rattle.x_lists.specs.Seqs.{Gapped};
    ghost use Rattle.x_lists.specs.Lengths.{IsPlaced};

    ghost Value = { Gapped T };

    ghost view = { λ s. s.entries };

    ghost invariant = { λ s. IsPlaced T.length s.entries s.place };
}

impl<T: Measured + Drop> MeasuredSeq<T> {
    /// The list of these entries, with the seat behind the last of them.
    pub fn from_entries(alloc: Global, entries: Vec<T>) -> Result<MeasuredSeq<T>, NoMemory>
        requires short { total_length T.length entries.items < 2 ^ 64 }
        ensures list { IfOk result (λ s. s.list ≡ entries.items) }
        ensures seat { IfOk result (λ s. s.seat ≡ length entries.items) }
        ensures moved { IfOk result (λ s. s.moved ≡ 0) }
        ensures no_memory { entries.items ≡ [] → IsOk result }
    {
        let total = total_length(&entries);
        MeasuredSeq::of_length(alloc, entries, total)
    }

    /// The list of these entries, which are so long together, with the seat behind the last of them.
    pub fn of_length(
        alloc: Global,
        entries: Vec<T>,
        total: usize,
    ) -> Result<MeasuredSeq<T>, NoMemory>
        requires total { total ≡ total_length T.length entries.items }
        ensures list { IfOk result (λ s. s.list ≡ entries.items) }
        ensures seat { IfOk result (λ s. s.seat ≡ length entries.items) }
        ensures moved { IfOk result (λ s. s.moved ≡ 0) }
        ensures no_memory { entries.items ≡ [] → IsOk result }
    {
        let entries = GapSeq::from_entries(alloc, entries)?;
        Ok(MeasuredSeq {
            entries,
            place: total,
        })
    }

    /// How many entries there are.
    pub fn len(&self) -> usize
        ensures count { result ≡ length self.now.list }
        ensures seat { self.now.seat ≤ result }
    {
        self.entries.len()
    }

    /// Whether there is no entry.
    pub fn is_empty(&self) -> bool
        ensures { IsTrue result ↔ (self.now.list ≡ []) }
    {
        self.entries.is_empty()
    }

    /// The entry at `index`.
    pub fn get(&self, index: usize) -> Option<&T>
        ensures { option_copied result ≡ slice_get self.now.list index }
    {
        self.entries.get(index)
    }

    /// Goes over the entries.
    pub fn iter(&self) -> GapIter<'_, T>
        ensures list { result ≡ self.now.list }
        ensures small { length result < 2 ^ 64 }
    {
        self.entries.iter()
    }

    /// Goes over the entries from that at `index` on.
    pub fn iter_from(&self, index: usize) -> GapIter<'_, T>
        requires { index ≤ length self.now.list }
        ensures list { result ≡ drop index self.now.list }
        ensures small { length result < 2 ^ 64 }
    {
        self.entries.iter_from(index)
    }

    /// Goes over the entries that the patch will leave, from that at `index` on.
    pub fn iter_patched<'a>(&'a self, patch: &'a SeqPatch<T>, index: usize) -> PatchedIter<'a, T>
        requires among { LiesAmong self.now.list patch.now }
        requires within { index ≤ length (patched self.now.list patch.now) }
        ensures { result ≡ drop index (patched self.now.list patch.now) }
    {
        let at = patch.at();
        let from = index.min(at);
        let into = index - from;
        let fresh = &patch.fresh()[into.min(patch.len())..];
        let rest = self.len() - at - patch.removed();
        let left = rest - into.saturating_sub(patch.len());
        let rear = self.iter_from(self.len() - left);
        PatchedIter::new(at - from, self.iter_from(from), fresh, rear)
    }

    /// Where the entry at `index` of those that the patch will leave starts, or where the last of them ends.
    ///
    /// Looks at no more entries than three calls of [`MeasuredSeq::start_of`] do, and at the fresh ones.
    pub fn start_patched(&self, patch: &SeqPatch<T>, index: usize) -> usize
        requires among { LiesAmong self.now.list patch.now }
        requires within { index ≤ length (patched self.now.list patch.now) }
        requires short { total_length T.length (patched self.now.list patch.now) < 2 ^ 64 }
        ensures { result ≡ length_before T.length (patched self.now.list patch.now) index }
    {
        let from = index.min(patch.at());
        let into = (index - from).min(patch.len());
        let rest = self.len() - patch.at() - patch.removed();
        let left = rest - (index - from - into);
        let behind = self.start_of(self.len() - left) - self.start_of(self.len() - rest);
        self.start_of(from) + total_length(&patch.fresh()[..into]) + behind
    }

    /// Where the entry at `index` starts, or where the last one ends.
    ///
    /// Looks at each entry between it and the seat or the first one.
    pub fn start_of(&self, index: usize) -> usize
        requires { index ≤ length self.now.list }
        ensures { result ≡ length_before T.length self.now.list index }
    {
        let seat = self.entries.seat();
        if seat <= index {
            self.forward(seat, self.place, index)
        } else if index <= seat - index {
            self.forward(0, 0, index)
        } else {
            self.backward(seat, self.place, index)
        }
    }

    /// Makes room for `extra` more entries. After [`NoMemory`], too, all is as before but the room, which
    /// never shrinks.
    pub fn reserve(&mut self, extra: usize) -> Result<(), NoMemory>
        ensures list { self.new.list ≡ self.old.list }
        ensures seat { self.new.seat ≡ self.old.seat }
        ensures still { self.new.moved ≡ self.old.moved }
        ensures ok { OnOk result (extra ≤ self.new.spare) }
        ensures full { OnErr result (self.old.spare < extra) }
        ensures room { self.old.spare ≤ self.new.spare }
    {
        self.entries.reserve(extra)
    }

    /// Carries the patch out in room that is there, and answers how many entries that stay it moved. It takes
    /// no memory.
    ///
    /// It walks to its place and does not trust the patch's: it takes as many steps as it moves and removes
    /// entries, at the most.
    pub fn put(&mut self, patch: SeqPatch<T>) -> u64
        requires among { LiesAmong self.old.list patch }
        requires room { HasRoom self.old patch }
        requires short { total_length T.length (patched self.old.list patch) < 2 ^ 64 }
        ensures list { self.new.list ≡ patched self.old.list patch }
        ensures seat { self.new.seat ≡ patch.at + length patch.fresh }
        ensures moved { result ≡ distance self.old.seat patch.at (patch.at + patch.removed) }
        ensures counted { self.new.moved ≡ self.old.moved + result }
        ensures room { self.old.spare + patch.removed ≤ self.new.spare + length patch.fresh }
    {
        let at = patch.at();
        let removed = patch.removed();
        let fresh = patch.into_fresh();
        let place = self.start_of(at) + total_length(&fresh);
        let moved = self.entries.splice(at, removed, fresh);
        self.place = place;
        moved
    }

    /// Puts an entry in the place of the one at `index`, and gives that one back, with how many others moved.
    /// It takes no memory.
    pub fn exchange(&mut self, index: usize, new: T) -> (T, u64)
        requires within { index < length self.old.list }
        requires short { total_length T.length (slice_set self.old.list index new) < 2 ^ 64 }
        ensures out { slice_get self.old.list index ≡ Some result.0 }
        ensures list { self.new.list ≡ slice_set self.old.list index new }
        ensures seat { self.new.seat ≡ index + 1 }
        ensures moved { result.1 ≡ distance self.old.seat index (index + 1) }
        ensures counted { self.new.moved ≡ self.old.moved + result.1 }
        ensures room { self.old.spare ≤ self.new.spare }
    {
        let place = self.start_of(index) + new.length();
        let (out, moved) = self.entries.exchange(index, new);
        self.place = place;
        (out, moved)
    }

    /// Of the first entries, up to `most` of them, how many end before `limit`, and where the last of those
    /// ends: the search begins at the nearest of the start, the seat and the end of the list, which is at
    /// `end`.
    pub fn count_before(&self, most: usize, limit: usize, end: usize) -> (usize, usize)
        requires within { most ≤ length self.now.list }
        requires end { end ≡ total_length T.length self.now.list }
        ensures count { IsCountBefore T.length self.now.list most limit result.0 }
        ensures place { result.1 ≡ length_before T.length self.now.list result.0 }
    {
        let (index, place) = self.nearest(limit, end);
        let (index, place) = self.go_back(index, place, most, limit);
        self.go_forth(index, place, most, limit)
    }

    /// Goes on from the first `from` entries, which end at `place`, to the first that end at `target` or
    /// behind it, or to `most` of them.
    pub fn advance(&self, from: usize, place: usize, most: usize, target: usize) -> (usize, usize)
        requires forward { from ≤ most }
        requires within { most ≤ length self.now.list }
        requires place { place ≡ length_before T.length self.now.list from }
        ensures forward { from ≤ result.0 }
        ensures within { result.0 ≤ most }
        ensures place { result.1 ≡ length_before T.length self.now.list result.0 }
        ensures below { (j : ℕ) → from ≤ j → j < result.0 → length_before T.length self.now.list j < target }
        ensures reached { result.0 < most → target ≤ result.1 }
    {
        let mut index = from;
        let mut end = place;
        while index < most && end < target {
            end += self.length_at(index);
            index += 1;
        }
        (index, end)
    }

    /// How long the entry at `index` is.
    fn length_at(&self, index: usize) -> usize
        requires { index < length self.now.list }
        ensures next { length_before T.length self.now.list (index + 1)
            ≡ length_before T.length self.now.list index + result }
        ensures fits { length_before T.length self.now.list (index + 1) < 2 ^ 64 }
    {
        match self.entries.get(index) {
            Some(entry) => entry.length(),
            None => 0,
        }
    }

    /// A count of entries and where the last of so many ends: of the start, the seat and the end, the nearest
    /// to the place `at`.
    fn nearest(&self, at: usize, end: usize) -> (usize, usize)
        requires { end ≡ total_length T.length self.now.list }
        ensures within { result.0 ≤ length self.now.list }
        ensures place { result.1 ≡ length_before T.length self.now.list result.0 }
    {
        let from_start = at;
        let from_seat = at.abs_diff(self.place);
        let from_end = at.abs_diff(end);
        if from_start <= from_seat && from_start <= from_end {
            (0, 0)
        } else if from_seat <= from_end {
            (self.entries.seat(), self.place)
        } else {
            (self.entries.len(), end)
        }
    }

    /// Goes back from the first `index` entries, which end at `place`, to the most, up to `most`, that end
    /// before `limit`, or to none.
    fn go_back(&self, index: usize, place: usize, most: usize, limit: usize) -> (usize, usize)
        requires within { index ≤ length self.now.list }
        requires place { place ≡ length_before T.length self.now.list index }
        ensures within { result.0 ≤ most }
        ensures place { result.1 ≡ length_before T.length self.now.list result.0 }
        ensures before { 0 < result.0 → result.1 < limit }
    {
        let mut index = index;
        let mut place = place;
        while index > 0 && (index > most || place >= limit) {
            index -= 1;
            place -= self.length_at(index);
        }
        (index, place)
    }

    /// Goes on from the first `index` entries, which end at `place`, to the most, up to `most`, that end
    /// before `limit`.
    fn go_forth(&self, index: usize, place: usize, most: usize, limit: usize) -> (usize, usize)
        requires order { index ≤ most }
        requires within { most ≤ length self.now.list }
        requires place { place ≡ length_before T.length self.now.list index }
        requires before { 0 < index → place < limit }
        ensures count { IsCountBefore T.length self.now.list most limit result.0 }
        ensures place { result.1 ≡ length_before T.length self.now.list result.0 }
    {
        let mut index = index;
        let mut place = place;
        while index < most {
            let next = place + self.length_at(index);
            if next >= limit {
                return (index, place);
            }
            index += 1;
            place = next;
        }
        (index, place)
    }

    /// Where the first `to` entries end, where the first `from`, which are fewer, end at `place`.
    fn forward(&self, from: usize, place: usize, to: usize) -> usize
        requires order { from ≤ to }
        requires within { to ≤ length self.now.list }
        requires place { place ≡ length_before T.length self.now.list from }
        ensures { result ≡ length_before T.length self.now.list to }
    {
        let mut end = place;
        for index in from..to {
            end += self.length_at(index);
        }
        end
    }

    /// Where the first `to` entries end, where the first `from`, which are more, end at `place`.
    fn backward(&self, from: usize, place: usize, to: usize) -> usize
        requires order { to ≤ from }
        requires within { from ≤ length self.now.list }
        requires place { place ≡ length_before T.length self.now.list from }
        ensures { result ≡ length_before T.length self.now.list to }
    {
        let mut taken = 0;
        for index in to..from {
            taken += self.length_at(index);
        }
        place - taken
    }
}
