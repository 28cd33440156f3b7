//! What the tests compare by.

use std::alloc::Global;
use std::fmt::{Debug, Display};
use std::process::Abort;
use std::test::Fail;

/// Checks that what was found is what was wanted, and ends the test where it is not. `assert_eq!` would write
/// its branches and its message out at each use, and each of them would be proved there.
pub fn expect_eq<T: PartialEq + Debug + Copy>(rt: &impl Abort, found: T, wanted: T) {
    if found != wanted {
        rt.panic(format_args!("found:  {found:?}\n  wanted: {wanted:?}"))
    }
}

/// Checks that a value has this text. Without memory it fails.
pub fn expect_text<T: Display>(
    rt: &impl Abort,
    alloc: Global,
    value: &T,
    wanted: &str,
) -> Result<(), Fail> {
    let text = value.to_string(alloc)?;
    expect_eq(rt, text.as_str(), wanted);
    Ok(())
}
