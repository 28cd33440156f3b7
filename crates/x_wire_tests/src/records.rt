//! Records of streams.
use crate::asserts::{expect_eq, expect_text};
use crate::streams::{NULL_CALL, READDIR};
use refusals::{ALL, MOST_TURNS, begin, end};
use std::alloc::{AllocError, Global};
use std::process::Abort;
use std::test::Fail;
use x_wire::{MAX_RECORD, ReadCode, ReadFault, RecordCode, RecordFault, Records, message};

/// A record of three fragments, the second of them empty; one of no bytes; and two bytes of a header.
const STREAM: &[u8] = b"\0\0\0\x03abc\0\0\0\0\x80\0\0\x02de\x80\0\0\0\x80\0";

/// Feeds a piece, and adds each record that it makes whole, and `;`, to the text.
fn feed_all(records: &mut Records, piece: &[u8], text: &mut Vec<u8>) -> Result<(), RecordFault> {
    let mut used = 0;
    while used < piece.len() {
        let fed = match records.feed(&piece[used..]) {
            Ok(fed) => fed,
            Err(fault) => return Err(fault),
        };
        used += fed.used;
        if let Some(whole) = fed.whole {
            add_record(text, whole).map_err(|_| NO_MEMORY)?;
        }
    }
    Ok(())
}

const NO_MEMORY: RecordFault = RecordFault {
    at: 0,
    code: RecordCode::NoMemory,
};

fn add_record(text: &mut Vec<u8>, whole: &[u8]) -> Result<(), AllocError> {
    text.extend_from_slice(whole)?;
    text.push(b';')?;
    Ok(())
}

/// Feeds a stream in two pieces, cut behind so many bytes.
pub(crate) fn feed_cut(
    alloc: Global,
    stream: &[u8],
    cut: usize,
    text: &mut Vec<u8>,
) -> Result<(), RecordFault> {
    let (first, rest) = stream.split_at(cut.min(stream.len()));
    let mut records = Records::new(alloc);
    feed_all(&mut records, first, text)?;
    feed_all(&mut records, rest, text)?;
    records.finish()
}

fn refusal(at: u64, code: RecordCode) -> Result<(), RecordFault> {
    Err(RecordFault { at, code })
}

#[test]
fn a_stream_has_its_records_in_every_cut(rt: HostRuntime) {
    for cut in 0..25 {
        let mut text = Vec::new(rt.alloc());
        let end = feed_cut(rt.alloc(), STREAM, cut, &mut text);
        expect_eq(&rt, end, refusal(23, RecordCode::Truncated));
        expect_eq(&rt, text.as_slice(), b"abcde;;".as_slice());
    }
}

/// Feeds one header, and then a byte.
fn feed_header(rt: &impl Abort, alloc: Global, header: &[u8]) -> Result<(), RecordFault> {
    let mut records = Records::new(alloc);
    let mut text = Vec::new(alloc);
    let answer = feed_all(&mut records, header, &mut text);
    let again = feed_all(&mut records, b"x", &mut text);
    assert!(rt; text.is_empty());
    if answer.is_err() {
        expect_eq(rt, answer, again);
        expect_eq(rt, answer, records.finish());
    }
    answer
}

#[test]
fn the_header_decides_that_a_record_is_too_long(rt: HostRuntime) {
    let too_long = refusal(0, RecordCode::RecordTooLong);
    expect_eq(
        &rt,
        feed_header(&rt, rt.alloc(), b"\x7f\xff\xff\xff"),
        too_long,
    );
    expect_eq(
        &rt,
        feed_header(&rt, rt.alloc(), b"\x80\x10\0\x01"),
        too_long,
    );
    expect_eq(&rt, feed_header(&rt, rt.alloc(), b"\0\x10\0\x01"), too_long);
    expect_eq(&rt, feed_header(&rt, rt.alloc(), b"\x80\x10\0\0"), Ok(()));
}

#[test]
fn a_record_may_have_the_most_bytes(rt: HostRuntime) -> Result<(), Fail> {
    let data = vec![in rt.alloc(); 7u8; MAX_RECORD]?;
    let mut records = Records::new(rt.alloc());
    assert!(rt; records.feed(b"\x80\x10\0\0").is_ok());
    let len = match records.feed(&data) {
        Ok(fed) => fed.whole.map(|whole| whole.len()),
        Err(_) => None,
    };
    expect_eq(&rt, len, Some(MAX_RECORD));
    expect_eq(&rt, records.finish(), Ok(()));
    Ok(())
}

#[test]
fn fragments_add_up_to_a_record_that_is_too_long(rt: HostRuntime) -> Result<(), Fail> {
    let data = vec![in rt.alloc(); 7u8; 524_288]?;
    let mut records = Records::new(rt.alloc());
    let mut text = Vec::new(rt.alloc());
    expect_eq(
        &rt,
        feed_all(&mut records, b"\0\x08\0\0", &mut text),
        Ok(()),
    );
    expect_eq(&rt, feed_all(&mut records, &data, &mut text), Ok(()));
    let too_long = refusal(524_292, RecordCode::RecordTooLong);
    expect_eq(
        &rt,
        feed_all(&mut records, b"\x80\x08\0\x01", &mut text),
        too_long,
    );
    expect_eq(&rt, records.finish(), too_long);
    Ok(())
}

#[test]
fn empty_fragments_leave_a_record_open(rt: HostRuntime) {
    let mut records = Records::new(rt.alloc());
    let mut text = Vec::new(rt.alloc());
    expect_eq(&rt, records.finish(), Ok(()));
    for _ in 0..1000 {
        expect_eq(&rt, feed_all(&mut records, &[0; 4], &mut text), Ok(()));
    }
    expect_eq(&rt, records.finish(), refusal(4000, RecordCode::Truncated));
}

#[test]
fn a_reason_has_its_text(rt: HostRuntime) -> Result<(), Fail> {
    expect_eq(&rt, RecordCode::NoMemory.text(), "58 NoMemory");
    let fault = RecordFault {
        at: 23,
        code: RecordCode::Truncated,
    };
    expect_text(&rt, rt.alloc(), &fault, "61 Truncated at 23")
}

/// Feeds what stands behind a cut with one allocation refused after another. After a refusal all is as before
/// the call, and the same bytes then give the records.
fn feed_with_little_memory(
    rt: &impl Abort,
    alloc: Global,
    (first, rest): (&[u8], &[u8]),
    whole: &[u8],
) -> Result<usize, Fail> {
    for turn in 0..MOST_TURNS {
        let mut records = Records::new(alloc);
        let mut text = Vec::new(alloc);
        expect_eq(rt, feed_all(&mut records, first, &mut text), Ok(()));
        let before = records.finish();
        begin(alloc, turn)?;
        let answer = records.feed(rest);
        let refused = end(alloc);
        let used = match answer {
            Ok(fed) => {
                if let Some(whole) = fed.whole {
                    add_record(&mut text, whole)?;
                }
                fed.used
            }
            Err(fault) => {
                assert!(rt; refused && fault == NO_MEMORY);
                0
            }
        };
        if used == 0 {
            expect_eq(rt, records.finish(), before);
        }
        let rest = rest.get(used..).unwrap_or_default();
        expect_eq(rt, feed_all(&mut records, rest, &mut text), Ok(()));
        expect_eq(rt, records.finish(), Ok(()));
        expect_eq(rt, text.as_slice(), whole);
        if !refused {
            return Ok(turn);
        }
    }
    panic!(rt; "feeding never ends")
}

/// Feeds a stream so, cut at each place. Its records are parts of it: from where, to where, and whether a
/// record ends there.
fn feed_every_cut(
    rt: &impl Abort,
    alloc: Global,
    stream: &[u8],
    parts: &[(usize, usize, bool)],
) -> Result<usize, Fail> {
    let mut whole = Vec::new(alloc);
    for (from, to, ends) in parts {
        whole.extend_from_slice(stream.get(*from..*to).unwrap_or_default())?;
        if *ends {
            whole.push(b';')?;
        }
    }
    let mut turns = 0usize;
    for cut in 0..stream.len() {
        let pieces = stream.split_at(cut);
        turns = turns.saturating_add(feed_with_little_memory(rt, alloc, pieces, &whole)?);
    }
    Ok(turns)
}

/// Two streams of a call and a reply each, the second reply in three fragments.
#[test]
fn refused_feeding(rt: HostRuntime) -> Result<(), Fail> {
    let turns = feed_every_cut(&rt, rt.alloc(), NULL_CALL, &[(4, 44, true), (48, 72, true)])?;
    let others = feed_every_cut(
        &rt,
        rt.alloc(),
        READDIR,
        &[(4, 84, true), (88, 112, false), (120, 172, true)],
    )?;
    println!(rt; "turns: {turns} {others}")?;
    Ok(())
}

/// What takes no memory, with every allocation refused: to begin with records, to end with them, and to read
/// a message.
#[test]
fn bare_records(rt: HostRuntime) -> Result<(), Fail> {
    begin(rt.alloc(), ALL)?;
    let mut records = Records::new(rt.alloc());
    expect_eq(&rt, records.finish(), Ok(()));
    assert!(rt; records.feed(b"\x7f\xff\xff\xff").is_err());
    expect_eq(&rt, records.finish(), refusal(0, RecordCode::RecordTooLong));
    let read = message(&NULL_CALL[4..44]).map(|message| message.xid);
    expect_eq(&rt, read, Ok(1));
    let short = ReadFault {
        at: 3,
        code: ReadCode::Short,
    };
    expect_eq(&rt, message(&NULL_CALL[4..7]).err(), Some(short));
    assert!(rt; !end(rt.alloc()));
    Ok(())
}
