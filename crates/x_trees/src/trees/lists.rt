//! Lists as they stay.

ghost use Rattle.std.specs.Prelude.{◌≡◌};

/// The list, in no more memory than it takes: a tree is kept as long as its text, and most lists in it are
/// short.
pub fn fitted<T>(list: Vec<T>) -> Vec<T>
    ensures { list.items ≡ result.items }
{
    let mut list = list;
    list.shrink_to_fit();
    list
}
