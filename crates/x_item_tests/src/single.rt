//! One token alone.
use refusals::{ALL, begin, end};
use std::test::Fail;
use x_lex::{Kind, lex_one};
use x_text::Meter;

/// One token depends on the line start, and takes no memory.
#[test]
fn bare_token(rt: HostRuntime) -> Result<(), Fail> {
    begin(rt.alloc(), ALL)?;
    let mut meter = Meter::new();
    let at_start = lex_one(b"a\n% b", 2, true, &mut meter);
    assert!(rt; at_start == (Kind::Percent, 5));
    let elsewhere = lex_one(b"a\n% b", 2, false, &mut meter);
    assert!(rt; elsewhere == (Kind::BadByte, 3));
    assert!(rt; !end(rt.alloc()));
    Ok(())
}
