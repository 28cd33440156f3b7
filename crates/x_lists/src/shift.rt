//! Two stacks that hold a list between them, and room that was made before.
ghost use Rattle.std.specs.Prelude.{◌≡◌, ◌+◌, ◌<◌, ◌≤◌, [], ◌∷◌, ◌++◌, reverse, vec_len, vec_capacity};
ghost use Rattle.x_lists.specs.Seqs.{distance};

use super::moves::Moves;

/// Moves the last `count` entries of one stack onto the other, the last first, and counts each of them.
fn shift<T: Drop>(from: &mut Vec<T>, onto: &mut Vec<T>, moves: &mut Moves, count: usize)
    requires there { count ≤ vec_len from.old }
    requires room { vec_len onto.old + count ≤ vec_capacity onto.old }
    ensures entries { from.new.items ++ reverse onto.new.items ≡ from.old.items ++ reverse onto.old.items }
    ensures from { vec_len from.new + count ≡ vec_len from.old }
    ensures onto { vec_len onto.new ≡ vec_len onto.old + count }
    ensures counted { moves.new.total ≡ moves.old.total + count }
    ensures capacity_from { vec_capacity from.new ≡ vec_capacity from.old }
    ensures capacity_onto { vec_capacity onto.old ≤ vec_capacity onto.new }
{
    for _i in 0..count {
        if let Some(entry) = from.pop() {
            moves.count();
            push_in_room(onto, entry);
        }
    }
}

/// Moves the seat between two stacks to the place, and counts and answers how many entries moved.
pub(crate) fn seek<T: Drop>(
    front: &mut Vec<T>,
    rear: &mut Vec<T>,
    moves: &mut Moves,
    place: usize,
) -> usize
    requires within { place ≤ vec_len front.old + vec_len rear.old }
    requires room_front { vec_len front.old + vec_len rear.old ≤ vec_capacity front.old }
    requires room_rear { vec_len front.old + vec_len rear.old ≤ vec_capacity rear.old }
    ensures entries { front.new.items ++ reverse rear.new.items ≡ front.old.items ++ reverse rear.old.items }
    ensures front { vec_len front.new ≡ place }
    ensures rear { vec_len rear.new + place ≡ vec_len front.old + vec_len rear.old }
    ensures moved { result ≡ distance (vec_len front.old) place place }
    ensures counted { moves.new.total ≡ moves.old.total + result }
    ensures capacity_front { vec_capacity front.old ≤ vec_capacity front.new }
    ensures capacity_rear { vec_capacity rear.old ≤ vec_capacity rear.new }
{
    let seat = front.len();
    if seat < place {
        shift(rear, front, moves, place - seat);
        place - seat
    } else {
        shift(front, rear, moves, seat - place);
        seat - place
    }
}

/// Appends an entry that there is room for.
pub(crate) fn push_in_room<T: Drop>(entries: &mut Vec<T>, entry: T)
    requires { vec_len entries.old < vec_capacity entries.old }
    ensures items { entries.new.items ≡ entries.old.items ++ entry ∷ [] }
    ensures len { vec_len entries.new ≡ vec_len entries.old + 1 }
    ensures capacity { vec_capacity entries.old ≤ vec_capacity entries.new }
{
    let _done = entries.push(entry);
}

/// Appends entries that there is room for.
pub(crate) fn append_in_room<T: Drop>(entries: &mut Vec<T>, mut new: Vec<T>)
    requires { vec_len entries.old + vec_len new ≤ vec_capacity entries.old }
    ensures items { entries.new.items ≡ entries.old.items ++ new.items }
    ensures len { vec_len entries.new ≡ vec_len entries.old + vec_len new }
    ensures capacity { vec_capacity entries.old ≤ vec_capacity entries.new }
{
    let _done = entries.append(&mut new);
}
