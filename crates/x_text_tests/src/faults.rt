//! The texts of error types.
use crate::asserts::{expect_eq, expect_text};
use refusals::{ALL, begin, end};
use std::test::Fail;
use x_text::{Broken, Meter, NoMemory, TextFault, WriteFault};

#[test]
fn faults_have_their_texts(rt: HostRuntime) -> Result<(), Fail> {
    let alloc = rt.alloc();
    for (fault, wanted) in [
        (TextFault::BadRange, "1 BadRange"),
        (TextFault::TooLarge, "2 TooLarge"),
        (TextFault::NoMemory, "3 NoMemory"),
    ] {
        expect_text(&rt, alloc, &fault, wanted)?;
    }
    expect_text(&rt, alloc, &NoMemory, "out of memory")?;
    expect_text(&rt, alloc, &Broken, "a read or a write failed")?;
    let fault = WriteFault { written: 10 };
    expect_text(&rt, alloc, &fault, "the write failed after 10 bytes")
}

/// A counter stays at the greatest number; with every allocation refused, since a meter takes no memory.
#[test]
fn bare_meter(rt: HostRuntime) -> Result<(), Fail> {
    begin(rt.alloc(), ALL)?;
    let mut meter = Meter::new();
    meter.tick_lexed();
    meter.tick_parsed();
    meter.tick_checked();
    meter.add_moved(40);
    meter.add_moved(u64::MAX);
    let counts = (
        meter.lexed(),
        meter.parsed(),
        meter.checked(),
        meter.moved(),
    );
    expect_eq(&rt, counts, (1, 1, 1, u64::MAX));
    assert!(rt; !end(rt.alloc()));
    Ok(())
}
