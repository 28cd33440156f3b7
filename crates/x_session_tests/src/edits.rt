//! Worked texts with an edit each, and what is answered before and after it, with every allocation refused in
//! turn: of opening a text, of an edit, of the types of a text and of a script.

ghost use Rattle.std.specs.Prelude.{◌≤◌};
ghost use Rattle.x_prelude.specs.Followed.{IsOver};

use crate::answers::{expect_answers, opened, run, write_answers};
use crate::asserts::expect_eq;
use refusals::{MOST_TURNS, begin, end};
use std::alloc::Global;
use std::process::Abort;
use std::test::Fail;
use x_prelude::FollowedText;
use x_script::EngineFault;
use x_session::{SchemaFault, Session, Work};
use x_text::{Edit, MemSink, MemTap, Source, TextFault};

/// What is asked of a text before and after a refusal.
const ASKED: &[u8] = b"tokens\ndefinitions\nfaults\nheader\nroutines\nstubs\ntable\n";

/// A line of a script, and its answer.
#[derive(Drop)]
pub struct Line {
    asked: &'static [u8],
    answer: &'static [u8],
}

/// A text, a script in which the line of this number is an edit of it, the text then, and the work that the
/// edit takes where the text was just opened.
#[derive(Drop)]
pub struct Row {
    pub text: &'static [u8],
    edited: &'static [u8],
    lines: [Line; 5],
    edit: Edit<'static>,
    work: Work,
}

const EDIT_LINE: usize = 2;

/// A line feed goes in front of a `%`; a brace comes that was missing; an enum loses a number that a union
/// names; a constant is declared before the one that it takes the name from; and a constant changes that 30
/// types see.
pub const ROWS: [Row; 5] = [
    Row {
        text: b"x;\n%y",
        edited: b"x;%y",
        lines: [
            Line {
                asked: b"tokens\n",
                answer: b"tokens 4\n0 1 Name\n1 2 Punct\n2 3 Space\n3 5 Percent\n",
            },
            Line {
                asked: b"faults\n",
                answer: b"faults 1\n1:1 10 Syntax\n",
            },
            Line {
                asked: b"edit 2 3\n",
                answer: b"ok 4\n",
            },
            Line {
                asked: b"tokens\n",
                answer: b"tokens 4\n0 1 Name\n1 2 Punct\n2 3 BadByte\n3 4 Name\n",
            },
            Line {
                asked: b"faults\n",
                answer: b"faults 2\n1:1 10 Syntax\n1:3 11 BadByte\n",
            },
        ],
        edit: Edit {
            start: 2,
            end: 3,
            insert: b"",
        },
        work: Work {
            lexed: 3,
            parsed: 2,
            checked: 0,
            moved: 0,
        },
    },
    Row {
        text: b"struct s { int a; const B = 2;",
        edited: b"struct s { int a; }; const B = 2;",
        lines: [
            Line {
                asked: b"definitions\n",
                answer: b"definitions 0\n",
            },
            Line {
                asked: b"faults\n",
                answer: b"faults 1\n1:19 10 Syntax\n",
            },
            Line {
                asked: b"edit 18 18 7d3b20\n",
                answer: b"ok 33\n",
            },
            Line {
                asked: b"definitions\n",
                answer: b"definitions 2\n0 struct s\n1 const B\n",
            },
            Line {
                asked: b"faults\n",
                answer: b"faults 0\n",
            },
        ],
        edit: Edit {
            start: 18,
            end: 18,
            insert: b"}; ",
        },
        work: Work {
            lexed: 4,
            parsed: 3,
            checked: 2,
            moved: 8,
        },
    },
    Row {
        text: b"enum e {A=0,B=1}; union u switch (e d) {case B: int x; default: void;};",
        edited: b"enum e {A=0}; union u switch (e d) {case B: int x; default: void;};",
        lines: [
            Line {
                asked: b"definitions\n",
                answer: b"definitions 2\n0 enum e\n1 union u\n",
            },
            Line {
                asked: b"faults\n",
                answer: b"faults 0\n",
            },
            Line {
                asked: b"edit 11 15\n",
                answer: b"ok 67\n",
            },
            Line {
                asked: b"definitions\n",
                answer: b"definitions 2\n0 enum e\n1 union u\n",
            },
            Line {
                asked: b"faults\n",
                answer: b"faults 1\n1:42 21 Unknown\n",
            },
        ],
        edit: Edit {
            start: 11,
            end: 15,
            insert: b"",
        },
        work: Work {
            lexed: 1,
            parsed: 1,
            checked: 2,
            moved: 35,
        },
    },
    Row {
        text: b"const N = 4; typedef int v[N];",
        edited: b"const N = 3; const N = 4; typedef int v[N];",
        lines: [
            Line {
                asked: b"definitions\n",
                answer: b"definitions 2\n0 const N\n1 typedef v\n",
            },
            Line {
                asked: b"faults\n",
                answer: b"faults 0\n",
            },
            Line {
                asked: b"edit 0 0 636f6e7374204e203d20333b20\n",
                answer: b"ok 43\n",
            },
            Line {
                asked: b"definitions\n",
                answer: b"definitions 3\n0 const N\n1 const N\n2 typedef v\n",
            },
            Line {
                asked: b"explain\n",
                answer: b"explained 1\n\
                    t.x:1:20: 20 Duplicate: 'N' is declared already\n\
                    \x20   1 | const N = 3; const N = 4; typedef int v[N];\n\
                    \x20     |                    ^\n\
                    \x20     | note: declared at t.x:1:7\n\
                    \x20     | help: constants, enumerators, types and programs need different \
                    names; so do inline types\n\
                    1 error\n",
            },
        ],
        edit: Edit {
            start: 0,
            end: 0,
            insert: b"const N = 3; ",
        },
        work: Work {
            lexed: 10,
            parsed: 2,
            checked: 3,
            moved: 19,
        },
    },
    Row {
        text: b"const N = 1;\
            typedef int a0[N];typedef int a1[N];typedef int a2[N];\
            typedef int a3[N];typedef int a4[N];typedef int a5[N];\
            typedef int a6[N];typedef int a7[N];typedef int a8[N];\
            typedef int a9[N];typedef int b0[N];typedef int b1[N];\
            typedef int b2[N];typedef int b3[N];typedef int b4[N];\
            typedef int b5[N];typedef int b6[N];typedef int b7[N];\
            typedef int b8[N];typedef int b9[N];typedef int c0[N];\
            typedef int c1[N];typedef int c2[N];typedef int c3[N];\
            typedef int c4[N];typedef int c5[N];typedef int c6[N];\
            typedef int c7[N];typedef int c8[N];typedef int c9[N];",
        edited: b"const N = 2;\
            typedef int a0[N];typedef int a1[N];typedef int a2[N];\
            typedef int a3[N];typedef int a4[N];typedef int a5[N];\
            typedef int a6[N];typedef int a7[N];typedef int a8[N];\
            typedef int a9[N];typedef int b0[N];typedef int b1[N];\
            typedef int b2[N];typedef int b3[N];typedef int b4[N];\
            typedef int b5[N];typedef int b6[N];typedef int b7[N];\
            typedef int b8[N];typedef int b9[N];typedef int c0[N];\
            typedef int c1[N];typedef int c2[N];typedef int c3[N];\
            typedef int c4[N];typedef int c5[N];typedef int c6[N];\
            typedef int c7[N];typedef int c8[N];typedef int c9[N];",
        lines: [
            Line {
                asked: b"faults\n",
                answer: b"faults 0\n",
            },
            Line {
                asked: b"dump a0 00000007\n",
                answer: b"value 2\n0 a0 = array 1\n1 [0] = 7\n",
            },
            Line {
                asked: b"edit 10 11 32\n",
                answer: b"ok 552\n",
            },
            Line {
                asked: b"faults\n",
                answer: b"faults 0\n",
            },
            Line {
                asked: b"dump a0 00000007\n",
                answer: b"fault 50 Short at 4\n",
            },
        ],
        edit: Edit {
            start: 10,
            end: 11,
            insert: b"2",
        },
        work: Work {
            lexed: 2,
            parsed: 1,
            checked: 31,
            moved: 302,
        },
    },
];

impl Row {
    /// The text behind so many lines.
    pub fn text_behind(&self, lines: usize) -> &'static [u8] {
        if lines > EDIT_LINE {
            self.edited
        } else {
            self.text
        }
    }

    /// The script from a line on.
    pub fn script(&self, alloc: Global, from: usize) -> Result<Vec<u8>, Fail> {
        let mut script = Vec::new(alloc);
        for line in self.lines.iter().skip(from) {
            script.extend_from_slice(line.asked)?;
        }
        Ok(script)
    }

    /// The answers from a line on.
    pub fn answers(&self, alloc: Global, from: usize) -> Result<Vec<u8>, Fail> {
        let mut answers = Vec::new(alloc);
        for line in self.lines.iter().skip(from) {
            answers.extend_from_slice(line.answer)?;
        }
        Ok(answers)
    }

    /// How many lines of the script are whole in its first bytes, and how many bytes their answers have.
    pub fn answered(&self, read: usize) -> (usize, usize) {
        let mut lines = 0usize;
        let mut asked = 0usize;
        let mut bytes = 0usize;
        for line in &self.lines {
            asked = asked.saturating_add(line.asked.len());
            if asked > read {
                break;
            }
            bytes = bytes.saturating_add(line.answer.len());
            lines = lines.saturating_add(1);
        }
        (lines, bytes)
    }

    /// How many answers are whole in the first bytes of all, and how many bytes these have.
    pub fn whole_answers(&self, written: usize) -> (usize, usize) {
        let mut lines = 0usize;
        let mut bytes = 0usize;
        for line in &self.lines {
            let with = bytes.saturating_add(line.answer.len());
            if with > written {
                break;
            }
            bytes = with;
            lines = lines.saturating_add(1);
        }
        (lines, bytes)
    }
}

/// Opens the text with one allocation refused after another, and counts the turns.
fn open_with_little_memory(rt: &impl Abort, alloc: Global, text: &[u8]) -> Result<usize, Fail> {
    for turn in 0..MOST_TURNS {
        begin(alloc, turn)?;
        let source = Source::from_bytes(alloc, text).err();
        let session = Session::open(alloc, b"t", text).err();
        let refused = end(alloc);
        for fault in [source, session] {
            assert!(rt; fault.is_none() || (refused && fault == Some(TextFault::NoMemory)));
        }
        if !refused {
            return Ok(turn);
        }
    }
    panic!(rt; "opening never ends")
}

/// Carries the edit out, and after a refusal once more: then all was as before, seats included, by the
/// answers and by what the edit takes.
fn apply_once(
    rt: &impl Abort,
    alloc: Global,
    text: &mut FollowedText,
    row: &Row,
    turn: usize,
) -> Result<bool, Fail>
    requires turn { turn ≤ 20000 }
    requires over { IsOver text.now }
    ensures { IsOver text.new }
{
    let mut buffer = [0u8; 32768];
    let asked = write_answers(alloc, text, ASKED, &mut buffer)?;
    let before = buffer.get(..asked).unwrap_or_default();
    begin(alloc, turn)?;
    let answer = text.apply(&row.edit);
    let refused = end(alloc);
    match answer {
        Ok(work) => {
            expect_eq(rt, work, row.work);
            return Ok(refused);
        }
        Err(fault) => assert!(rt; refused && fault == TextFault::NoMemory),
    }
    expect_text(rt, &text.session, row.text);
    expect_answers(rt, alloc, text, ASKED, before)?;
    let work = text.apply(&row.edit)?;
    expect_eq(rt, work, row.work);
    Ok(refused)
}

/// Checks the text that a session has.
pub fn expect_text(rt: &impl Abort, session: &Session, text: &[u8]) {
    expect_eq(rt, session.bytes(), text);
}

/// Then the lines behind the edit.
fn apply_and_ask(
    rt: &impl Abort,
    alloc: Global,
    text: &mut FollowedText,
    row: &Row,
    script: &[u8],
    answers: &[u8],
    turn: usize,
) -> Result<bool, Fail>
    requires turn { turn ≤ 20000 }
    requires over { IsOver text.now }
{
    let refused = apply_once(rt, alloc, text, row, turn)?;
    expect_text(rt, &text.session, row.edited);
    expect_answers(rt, alloc, text, script, answers)?;
    Ok(refused)
}

fn open_and_apply(
    rt: &impl Abort,
    alloc: Global,
    row: &Row,
    script: &[u8],
    answers: &[u8],
    turn: usize,
) -> Result<bool, Fail>
    requires { turn ≤ 20000 }
{
    let mut text = opened(alloc, row.text)?;
    apply_and_ask(rt, alloc, &mut text, row, script, answers, turn)
}

fn apply_in_turns(
    rt: &impl Abort,
    alloc: Global,
    row: &Row,
    script: &[u8],
    answers: &[u8],
) -> Result<usize, Fail> {
    for turn in 0..MOST_TURNS {
        if !open_and_apply(rt, alloc, row, script, answers, turn)? {
            return Ok(turn);
        }
    }
    panic!(rt; "an edit never ends")
}

/// The edit with one allocation refused after another, and then the lines behind it.
fn apply_with_little_memory(rt: &impl Abort, alloc: Global, row: &Row) -> Result<usize, Fail> {
    let script = row.script(alloc, EDIT_LINE + 1)?;
    let answers = row.answers(alloc, EDIT_LINE + 1)?;
    apply_in_turns(rt, alloc, row, &script, &answers)
}

/// The types of the text, which there are where it has no fault, with one allocation refused after another;
/// of a text with a fault it is told so without memory.
fn make_schema(rt: &impl Abort, alloc: Global, text: &[u8]) -> Result<Option<usize>, Fail> {
    let session = Session::open(alloc, b"t", text)?;
    let turns = make_in_turns(rt, alloc, &session)?;
    assert!(rt; session.fault_count() == 0 || turns == 0);
    Ok((session.fault_count() == 0).then_some(turns))
}

fn make_in_turns(rt: &impl Abort, alloc: Global, session: &Session) -> Result<usize, Fail> {
    for turn in 0..MOST_TURNS {
        begin(alloc, turn)?;
        let fault = session.schema().err();
        let refused = end(alloc);
        match fault {
            None => expect_eq(rt, session.fault_count(), 0),
            Some(SchemaFault::NoMemory) => assert!(rt; refused && session.schema().is_ok()),
            Some(SchemaFault::Faulty) => assert!(rt; !refused && session.fault_count() > 0),
        }
        if !refused {
            return Ok(turn);
        }
    }
    panic!(rt; "a schema never ends")
}

/// Checks what a run of the script left that ended early or not, and answers the lines that are left.
fn go_on(
    rt: &impl Abort,
    alloc: Global,
    text: &mut FollowedText,
    sink: &mut MemSink,
    row: &Row,
) -> Result<usize, Fail>
    requires { IsOver text.now }
{
    let written = sink.bytes().len();
    let (lines, bytes) = row.whole_answers(written);
    let answers = row.answers(alloc, 0)?;
    expect_eq(rt, bytes, written);
    assert!(rt; answers.starts_with(sink.bytes()));
    expect_text(rt, &text.session, row.text_behind(lines));
    let rest = row.script(alloc, lines)?;
    let mut tap = MemTap::new(&rest, 64, usize::MAX);
    run(alloc, text, &mut tap, sink)?;
    expect_eq(rt, sink.bytes(), answers.as_slice());
    expect_text(rt, &text.session, row.edited);
    Ok(written)
}

/// The script with one allocation refused after another: what is written is whole answers, the text is as
/// their lines left it, and the lines that are left are answered with memory.
fn run_with_little_memory(rt: &impl Abort, alloc: Global, row: &Row) -> Result<usize, Fail> {
    let script = row.script(alloc, 0)?;
    run_in_turns(rt, alloc, row, &script)
}

fn run_in_turns(rt: &impl Abort, alloc: Global, row: &Row, script: &[u8]) -> Result<usize, Fail> {
    for turn in 0..MOST_TURNS {
        if !open_and_run(rt, alloc, row, script, turn)? {
            return Ok(turn);
        }
    }
    panic!(rt; "a script never ends")
}

fn open_and_run(
    rt: &impl Abort,
    alloc: Global,
    row: &Row,
    script: &[u8],
    turn: usize,
) -> Result<bool, Fail>
    requires { turn ≤ 20000 }
{
    let mut text = opened(alloc, row.text)?;
    run_once(rt, alloc, &mut text, row, script, turn)
}

fn run_once(
    rt: &impl Abort,
    alloc: Global,
    text: &mut FollowedText,
    row: &Row,
    script: &[u8],
    turn: usize,
) -> Result<bool, Fail>
    requires turn { turn ≤ 20000 }
    requires over { IsOver text.now }
{
    let mut buffer = [0u8; 2048];
    let mut sink = MemSink::new(&mut buffer, 64, 2048);
    let mut tap = MemTap::new(script, 64, usize::MAX);
    begin(alloc, turn)?;
    let outcome = run(alloc, text, &mut tap, &mut sink);
    let refused = end(alloc);
    let written = go_on(rt, alloc, text, &mut sink, row)? as u64;
    match outcome {
        Ok(_) => expect_eq(rt, written, sink.bytes().len() as u64),
        Err(fault) => assert!(rt; refused && fault == EngineFault::NoMemory { written }),
    }
    Ok(refused)
}

#[test]
fn refused_rows(rt: HostRuntime) -> Result<(), Fail> {
    let alloc = rt.alloc();
    for row in &ROWS {
        let opening = open_with_little_memory(&rt, alloc, row.text)?;
        let editing = apply_with_little_memory(&rt, alloc, row)?;
        let running = run_with_little_memory(&rt, alloc, row)?;
        println!(rt; "turns: {opening} {editing} {running}")?;
        for text in [row.text, row.edited] {
            if let Some(types) = make_schema(&rt, alloc, text)? {
                println!(rt; "turns: {types}")?;
            }
        }
    }
    Ok(())
}

/// Whether the bytes begin and end so.
fn begins_and_ends(bytes: &[u8], (first, last): (&[u8], &[u8])) -> bool {
    let behind = bytes.len().saturating_sub(last.len());
    bytes.get(..first.len()) == Some(first) && bytes.get(behind..) == Some(last)
}

/// A line that asks to show a list of so many links.
fn links_script(alloc: Global, count: u32) -> Result<Vec<u8>, Fail> {
    let mut script = Vec::from_slice(alloc, b"dump l ")?;
    for _ in 0..count {
        script.extend_from_slice(b"00000001")?;
    }
    script.extend_from_slice(b"00000000\n")?;
    Ok(script)
}

/// Runs the line, and after a refusal once more, with memory.
fn show_once(
    rt: &impl Abort,
    alloc: Global,
    text: &mut FollowedText,
    script: &[u8],
    sink: &mut MemSink,
    turn: usize,
) -> Result<bool, Fail>
    requires turn { turn ≤ 20000 }
    requires over { IsOver text.now }
{
    let mut tap = MemTap::new(script, 65_536, usize::MAX);
    begin(alloc, turn)?;
    let outcome = run(alloc, text, &mut tap, sink);
    let refused = end(alloc);
    if let Err(fault) = outcome {
        let written = 0;
        assert!(rt; refused && fault == EngineFault::NoMemory { written });
        assert!(rt; sink.bytes().is_empty());
        let mut again = MemTap::new(script, 65_536, usize::MAX);
        run(alloc, text, &mut again, sink)?;
    }
    Ok(refused)
}

fn open_and_show(
    rt: &impl Abort,
    alloc: Global,
    script: &[u8],
    sink: &mut MemSink,
    turn: usize,
) -> Result<bool, Fail>
    requires { turn ≤ 20000 }
{
    let mut text = opened(alloc, b"struct l { l *n; };")?;
    show_once(rt, alloc, &mut text, script, sink, turn)
}

fn show_in_turns(
    rt: &impl Abort,
    alloc: Global,
    script: &[u8],
    room: &mut [u8],
    answer: (&[u8], &[u8]),
) -> Result<usize, Fail> {
    for turn in 0..MOST_TURNS {
        let mut sink = MemSink::new(room, 65_536, 4_000_000);
        let refused = open_and_show(rt, alloc, script, &mut sink, turn)?;
        assert!(rt; begins_and_ends(sink.bytes(), answer));
        if !refused {
            return Ok(turn);
        }
    }
    panic!(rt; "a value never ends")
}

/// Asks for a list of so many links, with one allocation refused after another, and after a refusal with
/// memory.
fn show_with_little_memory(
    rt: &impl Abort,
    alloc: Global,
    count: u32,
    answer: (&[u8], &[u8]),
) -> Result<usize, Fail> {
    let script = links_script(alloc, count)?;
    let mut room = vec![in alloc; 0u8; 4_000_000]?;
    show_in_turns(rt, alloc, &script, &mut room, answer)
}

/// A short list of links, one of as many as may be open at once, and one of one more.
#[test]
fn refused_links(rt: HostRuntime) -> Result<(), Fail> {
    let rows = [
        (
            1,
            b"value 4\n0 l = struct\n1 n = link\n".as_slice(),
            b"2 * = struct\n3 n = null\n".as_slice(),
        ),
        (
            65_536,
            b"value 131074\n0 l = struct\n1 n = link\n2 * = struct\n".as_slice(),
            b"131071 n = link\n131072 * = struct\n131073 n = null\n".as_slice(),
        ),
        (
            65_537,
            b"fault 56 TooDeep at 262144\n".as_slice(),
            b"fault 56 TooDeep at 262144\n".as_slice(),
        ),
    ];
    for (count, first, last) in rows {
        let turns = show_with_little_memory(&rt, rt.alloc(), count, (first, last))?;
        println!(rt; "turns: {turns}")?;
    }
    Ok(())
}
