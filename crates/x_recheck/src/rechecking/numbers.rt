//! The numbers of items before an edit and after it.

ghost use Rattle.std.specs.Prelude.{◌≡◌, ◌<◌, ◌+◌, ◌^◌};
ghost use Rattle.x_recheck.specs.Editing.{new_number, old_number};

use x_uses::ItemSplice;

/// The number that an item had before the edit, unless it is fresh.
pub fn old_number(place: ItemSplice, item: usize) -> Option<usize>
    requires place { place.at + place.added < 2 ^ 64 }
    requires item { item + place.removed < 2 ^ 64 }
    ensures { result ≡ old_number place item }
{
    if item < place.at {
        Some(item)
    } else if item < place.at + place.added {
        None
    } else {
        Some(item - place.added + place.removed)
    }
}

/// The number that an item has after the edit, unless it goes.
pub fn new_number(place: ItemSplice, item: usize) -> Option<usize>
    requires place { place.at + place.removed < 2 ^ 64 }
    requires item { item + place.added < 2 ^ 64 }
    ensures { result ≡ new_number place item }
{
    if item < place.at {
        Some(item)
    } else if item < place.at + place.removed {
        None
    } else {
        Some(item - place.removed + place.added)
    }
}
