//! Lists of what stands at items, in the order of these.
ghost use Rattle.std.specs.Prelude.{◌≡◌, ◌≤◌, ℕ, ◌++◌, length, map, take, drop, OnOk};
ghost use Rattle.smallvec.specs.SmallVec.{HasRoomFor};
ghost use Rattle.x_uses.specs.Slots.{front_of, rear_of, number_after, stays, renumbered, filled, sum_of};
ghost use Rattle.x_uses.specs.Slots.{user_item, put_user, ends_at, noted};

use super::ItemSplice;
use smallvec::SmallVec;
use x_text::NoMemory;

/// What stands at an item.
pub trait AtItem: Copy + Default + Drop {
    ghost item_of: { Self → ℕ };

    ghost put: { ℕ → Self → Self };

    /// Its item, counted from 0.
    fn item(self) -> usize
        ensures { result ≡ item_of self };

    /// The same at another item.
    fn at_item(self, item: usize) -> Self
        ensures { result ≡ put item self };
}

impl AtItem for u32 {
    ghost item_of = { user_item };

    ghost put = { put_user };

    fn item(self) -> usize {
        self as usize
    }

    fn at_item(self, item: usize) -> u32 {
        u32::try_from(item).unwrap_or(u32::MAX)
    }
}

/// How many of a list stand at items below a bound, from the first on.
pub fn count_below<T: AtItem>(places: &[T], bound: usize) -> usize
    ensures within { result ≤ length places.now }
    ensures front { take result places.now ≡ front_of T.item_of bound places.now }
    ensures rear { drop result places.now ≡ rear_of T.item_of bound places.now }
{
    let mut count = 0;
    while count < places.len() && places[count].item() < bound {
        count += 1;
    }
    count
}

impl ItemSplice {
    /// The number after the edit of an item that stays.
    pub(crate) fn number_after(self, item: usize) -> usize
        ensures { result ≡ number_after self item }
    {
        if item < self.at {
            item
        } else {
            item.saturating_sub(self.removed).saturating_add(self.added)
        }
    }
}

/// Gives what stands at an item that stays its number after the edit.
pub fn renumber<T: AtItem>(places: &mut [T], place: ItemSplice)
    ensures { places.new ≡ renumbered T.item_of T.put place places.old }
{
    for index in 0..places.len() {
        let here = places[index];
        places[index] = here.at_item(place.number_after(here.item()));
    }
}

/// The same of a vector.
pub fn renumber_all<T: AtItem, const N: usize>(places: &mut SmallVec<T, N>, place: ItemSplice)
    ensures items { places.new.items ≡ renumbered T.item_of T.put place places.old.items }
    ensures capacity { places.new.capacity ≡ places.old.capacity }
{
    renumber(places.as_mut_slice(), place);
}

/// Takes out what stands at the items that the edit takes out.
pub fn take_out<T: AtItem, const N: usize>(places: &mut SmallVec<T, N>, place: ItemSplice)
    ensures items { places.new.items ≡ stays T.item_of place places.old.items }
    ensures capacity { places.new.capacity ≡ places.old.capacity }
{
    let front = count_below(places, place.at);
    let behind = count_below(places, place.at.saturating_add(place.removed));
    let gone = behind.saturating_sub(front);
    let len = places.len();
    places.as_mut_slice()[front..].rotate_left(gone);
    places.truncate(len - gone);
}

/// Puts others between, whose items are counted from `at`.
pub fn put_in<T: AtItem, const N: usize>(places: &mut SmallVec<T, N>, at: usize, fresh: &[T])
    requires { HasRoomFor places.old (length fresh.now) }
    ensures items { places.new.items ≡ filled T.item_of T.put at fresh.now places.old.items }
    ensures capacity { places.new.capacity ≡ places.old.capacity }
{
    let front = count_below(places, at);
    let rear = places.len() - front;
    push_all(places, at, fresh);
    places.as_mut_slice()[front..].rotate_left(rear);
}

/// Puts others at the end, whose items are counted from `at`.
fn push_all<T: AtItem, const N: usize>(places: &mut SmallVec<T, N>, at: usize, fresh: &[T])
    requires { HasRoomFor places.old (length fresh.now) }
    ensures items { places.new.items
        ≡ places.old.items ++ map (λ y. T.put (sum_of at (T.item_of y)) y) fresh.now }
    ensures capacity { places.new.capacity ≡ places.old.capacity }
{
    for other in fresh {
        let item = at.saturating_add(other.item());
        places.push_reserved(other.at_item(item));
    }
}

/// Whether a list ends with what stands at this item.
fn ends_at<T: AtItem>(places: &[T], item: usize) -> bool
    ensures { result ≡ ends_at T.item_of item places.now }
{
    match places.last() {
        Some(last) => last.item() == item,
        None => false,
    }
}

/// Adds one at the end, but for a second of the same item.
pub fn note<T: AtItem, const N: usize>(places: &mut SmallVec<T, N>, here: T) -> Result<(), NoMemory>
    ensures { OnOk result (places.new.items ≡ noted T.item_of places.old.items here) }
{
    if !ends_at(places, here.item()) {
        places.push(here)?;
    }
    Ok(())
}
