//! The texts of faults.
use crate::asserts::expect_text;
use std::test::Fail;
use x_script::{EngineFault, LineFault};
use x_session::SchemaFault;

#[test]
fn faults_have_their_texts(rt: HostRuntime) -> Result<(), Fail> {
    let rows = [
        (
            EngineFault::Read { written: 5 },
            "a read failed, with 5 bytes written",
        ),
        (
            EngineFault::Write { written: 3 },
            "a write failed after 3 bytes",
        ),
        (
            EngineFault::NoMemory { written: 0 },
            "out of memory, with 0 bytes written",
        ),
    ];
    for (fault, wanted) in rows {
        expect_text(&rt, rt.alloc(), &fault, wanted)?;
    }
    expect_text(&rt, rt.alloc(), &LineFault::Read, "a read failed")?;
    expect_text(&rt, rt.alloc(), &LineFault::NoMemory, "out of memory")?;
    expect_text(&rt, rt.alloc(), &SchemaFault::Faulty, "40 Faulty")?;
    expect_text(&rt, rt.alloc(), &SchemaFault::NoMemory, "41 NoMemory")
}
