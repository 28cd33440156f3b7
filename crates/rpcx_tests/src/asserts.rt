//! What the tests compare by.

use std::fmt::Debug;
use std::process::Abort;

/// Checks that what was found is what was wanted, and ends the test where it is not. `assert_eq!` would write
/// its branches and its message out at each use, and each of them would be proved there.
pub fn expect_eq<T: PartialEq + Debug + Copy>(rt: &impl Abort, found: T, wanted: T) {
    if found != wanted {
        rt.panic(format_args!("found:  {found:?}\n  wanted: {wanted:?}"))
    }
}
