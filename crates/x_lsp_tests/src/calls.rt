//! A change of a text, and what is published of it, outside of a server.
use std::test::Fail;
use x_documents::{Hints, apply_change, publish};
use x_frames::TextChange;
use x_positions::{Encoding, Waymarks};
use x_published::{Client, FaultMessages};
use x_session::Session;
use x_text::Source;

#[test]
fn a_change_is_published(rt: HostRuntime) -> Result<(), Fail> {
    let alloc = rt.alloc();
    let mut text = Source::from_bytes(alloc, b"const A = 1;")?;
    let mut marks = Waymarks::of(alloc, Encoding::Utf8, text.bytes())?;
    let whole = TextChange {
        range: None,
        text: "x",
    };
    apply_change(alloc, &mut text, &mut marks, &whole)?;
    assert!(rt; text.bytes() == b"x".as_slice());
    let session = Session::open(alloc, b"t", text.bytes())?;
    let client = Client {
        encoding: Encoding::Utf8,
        shows_related: true,
    };
    let mut messages = FaultMessages::new(alloc);
    let hints = Hints {
        blanks: true,
        foreign: &[],
        warns: true,
        most: 1,
    };
    let note = publish(
        alloc,
        client,
        "t.x",
        1,
        &hints,
        text.bytes(),
        &session,
        &mut marks,
        &mut messages,
    )?;
    assert!(rt; note.len() > 200);
    Ok(())
}
