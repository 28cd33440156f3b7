//! What has a length.
ghost use Rattle.std.specs.Prelude.{◌≡◌, ℕ, ◌^◌, ◌<◌};
ghost use Rattle.x_lists.specs.Lengths.{total_length};

/// An entry that has a length.
pub trait Measured {
    ghost length: { Self → ℕ };

    /// How long it is.
    fn length(&self) -> usize
        ensures { result ≡ length self.now };
}

/// How long the entries are together.
pub(crate) fn total_length<T: Measured>(entries: &[T]) -> usize
    requires { total_length T.length entries.now < 2 ^ 64 }
    ensures { result ≡ total_length T.length entries.now }
{
    let mut total = 0;
    for entry in entries {
        total += entry.length();
    }
    total
}
