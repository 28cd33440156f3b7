//! The lines that explain a fault.

ghost use Rattle.std.specs.Prelude.{◌≡◌, Some, option_map};
ghost use Rattle.x_streams.specs.Writing.{Adds};
ghost use Rattle.x_explain.specs.Excerpts.{view_excerpt};
ghost use Rattle.x_explain.specs.KnownFiles.{view_first};
ghost use Rattle.x_explain.specs.Explained.{blank_front, caret_line, declared_line, green, gutter, help_line};
ghost use Rattle.x_explain.specs.Explained.{mark, meant, note_line, number_field, painted, place};
ghost use Rattle.x_explain.specs.Explained.{shown_front, shown_rear, source_line, word_tildes};

use crate::excerpt::Excerpt;
use crate::known_files::FirstDeclaration;
use crate::shown::{add_blanks, add_other_tildes, add_shown, first_of};
use itoa::Buffer;
use x_session::FirstPlace;
use x_text::{Pen, Sink};
use x_value::add_number;

/// The orders by which a terminal begins a colour: that of faults,
pub(crate) const RED: &[u8] = b"\x1b[1;31m";

/// of marks,
const GREEN: &[u8] = b"\x1b[1;32m";

/// and of what is said beside.
pub(crate) const CYAN: &[u8] = b"\x1b[1;36m";

/// The order by which it ends a colour.
const PLAIN: &[u8] = b"\x1b[0m";

/// As wide as the greatest number of a line.
const MARGIN: &[u8] = b"          ";

/// Adds the number of a line, at the right of five columns.
#[tactic(auto, using(x_text::proofs::Adding::two))]
fn add_number_field<S: Sink>(line: u32, pen: &mut Pen, sink: &mut S)
    ensures { Adds pen.old (S.state sink.old) pen.new (S.state sink.new) (number_field line) }
{
    let mut buffer = Buffer::new();
    let number = buffer.format(line);
    pen.add(first_of(MARGIN, 5usize.saturating_sub(number.len())), sink);
    pen.add(number.as_bytes(), sink);
}

/// Adds as much room.
fn add_gutter<S: Sink>(line: u32, pen: &mut Pen, sink: &mut S)
    ensures { Adds pen.old (S.state sink.old) pen.new (S.state sink.new) (gutter line) }
{
    let mut buffer = Buffer::new();
    let number = buffer.format(line);
    pen.add(first_of(MARGIN, number.len().max(5)), sink);
}

/// Adds the bytes of a line before the word.
#[tactic(auto, using(x_text::proofs::Adding::two))]
fn add_front<S: Sink>(excerpt: &Excerpt, pen: &mut Pen, sink: &mut S)
    ensures { Adds pen.old (S.state sink.old) pen.new (S.state sink.new)
        (shown_front (view_excerpt excerpt.now)) }
{
    pen.add(if excerpt.lacks_before { b"..." } else { b"" }, sink);
    add_shown(excerpt.front, excerpt.utf8, pen, sink);
}

/// Adds the bytes of a line from the word on.
#[tactic(auto, using(x_text::proofs::Adding::two))]
fn add_rear<S: Sink>(excerpt: &Excerpt, pen: &mut Pen, sink: &mut S)
    ensures { Adds pen.old (S.state sink.old) pen.new (S.state sink.new)
        (shown_rear (view_excerpt excerpt.now)) }
{
    add_shown(excerpt.rear, excerpt.utf8, pen, sink);
    pen.add(if excerpt.lacks_after { b"..." } else { b"" }, sink);
}

/// Adds the line of the text, with its number.
#[tactic(auto, using(x_text::proofs::Adding::five))]
pub(crate) fn add_source_line<S: Sink>(line: u32, excerpt: &Excerpt, pen: &mut Pen, sink: &mut S)
    ensures { Adds pen.old (S.state sink.old) pen.new (S.state sink.new)
        (source_line line (view_excerpt excerpt.now)) }
{
    add_number_field(line, pen, sink);
    pen.add(b" | ", sink);
    add_front(excerpt, pen, sink);
    add_rear(excerpt, pen, sink);
    pen.add(b"\n", sink);
}

/// Adds room as wide as the bytes of a line before the word.
#[tactic(auto, using(x_text::proofs::Adding::two))]
fn add_blank_front<S: Sink>(excerpt: &Excerpt, pen: &mut Pen, sink: &mut S)
    ensures { Adds pen.old (S.state sink.old) pen.new (S.state sink.new)
        (blank_front (view_excerpt excerpt.now)) }
{
    pen.add(if excerpt.lacks_before { b"   " } else { b"" }, sink);
    add_blanks(excerpt.front, excerpt.utf8, pen, sink);
}

/// Adds the marks under a word of so many bytes but for its first.
fn add_word_tildes<S: Sink>(excerpt: &Excerpt, width: usize, pen: &mut Pen, sink: &mut S)
    ensures { Adds pen.old (S.state sink.old) pen.new (S.state sink.new)
        (word_tildes (view_excerpt excerpt.now) width) }
{
    let word = first_of(excerpt.rear, width);
    add_other_tildes(word, excerpt.utf8, pen, sink);
}

/// Adds the mark under a word of so many bytes.
#[tactic(auto, using(x_text::proofs::Adding::two))]
fn add_mark<S: Sink>(excerpt: &Excerpt, width: usize, pen: &mut Pen, sink: &mut S)
    ensures { Adds pen.old (S.state sink.old) pen.new (S.state sink.new)
        (mark (view_excerpt excerpt.now) width) }
{
    pen.add(b"^", sink);
    add_word_tildes(excerpt, width, pen, sink);
}

/// Adds it in its colour.
#[tactic(auto, using(x_text::proofs::Adding::three))]
fn add_painted_mark<S: Sink>(
    coloured: bool,
    excerpt: &Excerpt,
    width: usize,
    pen: &mut Pen,
    sink: &mut S,
)
    ensures { Adds pen.old (S.state sink.old) pen.new (S.state sink.new)
        (painted coloured green (mark (view_excerpt excerpt.now) width)) }
{
    pen.add(if coloured { GREEN } else { b"" }, sink);
    add_mark(excerpt, width, pen, sink);
    pen.add(if coloured { PLAIN } else { b"" }, sink);
}

/// Adds the line with the mark under a word of so many bytes.
#[tactic(auto, using(x_text::proofs::Adding::five))]
pub(crate) fn add_caret_line<S: Sink>(
    coloured: bool,
    line: u32,
    excerpt: &Excerpt,
    width: usize,
    pen: &mut Pen,
    sink: &mut S,
)
    ensures { Adds pen.old (S.state sink.old) pen.new (S.state sink.new)
        (caret_line coloured line (view_excerpt excerpt.now) width) }
{
    add_gutter(line, pen, sink);
    pen.add(b" | ", sink);
    add_blank_front(excerpt, pen, sink);
    add_painted_mark(coloured, excerpt, width, pen, sink);
    pen.add(b"\n", sink);
}

/// Adds bytes in a colour, or as they are.
#[tactic(auto, using(x_text::proofs::Adding::three))]
pub(crate) fn add_painted<S: Sink>(
    coloured: bool,
    colour: &[u8],
    bytes: &[u8],
    pen: &mut Pen,
    sink: &mut S,
)
    ensures { Adds pen.old (S.state sink.old) pen.new (S.state sink.new)
        (painted coloured colour.now bytes.now) }
{
    pen.add(if coloured { colour } else { b"" }, sink);
    pen.add(bytes, sink);
    pen.add(if coloured { PLAIN } else { b"" }, sink);
}

/// Adds `FILE:LINE:COL`.
#[tactic(auto, using(x_text::proofs::Adding::five))]
pub(crate) fn add_place<S: Sink>(file: &str, line: u32, column: u32, pen: &mut Pen, sink: &mut S)
    ensures { Adds pen.old (S.state sink.old) pen.new (S.state sink.new) (place file.now line column) }
{
    pen.add(file.as_bytes(), sink);
    pen.add(b":", sink);
    add_number(line, pen, sink);
    pen.add(b":", sink);
    add_number(column, pen, sink);
}

/// Adds where the word is declared first.
#[tactic(auto, using(x_text::proofs::Adding::six))]
fn add_declared_line<S: Sink>(
    coloured: bool,
    file: &str,
    line: u32,
    first: &FirstPlace,
    pen: &mut Pen,
    sink: &mut S,
)
    ensures { Adds pen.old (S.state sink.old) pen.new (S.state sink.new)
        (declared_line coloured file.now line first.now) }
{
    add_gutter(line, pen, sink);
    pen.add(b" | ", sink);
    add_painted(coloured, CYAN, b"note:", pen, sink);
    pen.add(b" declared at ", sink);
    add_place(file, first.spot.line, first.spot.column, pen, sink);
    pen.add(b"\n", sink);
}

/// Adds where the word is declared first, if that is not here.
pub(crate) fn add_note_line<S: Sink>(
    coloured: bool,
    file: &str,
    line: u32,
    start: usize,
    first: Option<FirstDeclaration>,
    pen: &mut Pen,
    sink: &mut S,
)
    ensures { Adds pen.old (S.state sink.old) pen.new (S.state sink.new)
        (note_line coloured file.now line start (option_map view_first first.entry)) }
{
    let Some(FirstDeclaration { file: other, place }) = first else {
        return;
    };
    match other {
        Some(other) => add_declared_line(coloured, other, line, &place, pen, sink),
        None => {
            if place.spot.start != start {
                add_declared_line(coloured, file, line, &place, pen, sink);
            }
        }
    }
}

/// Adds the question that has a name which may have been meant.
#[tactic(auto, using(x_text::proofs::Adding::three))]
fn add_meant<S: Sink>(name: &[u8], pen: &mut Pen, sink: &mut S)
    ensures { Adds pen.old (S.state sink.old) pen.new (S.state sink.new) (meant name.now) }
{
    pen.add(b"did you mean '", sink);
    pen.add(name, sink);
    pen.add(b"'?", sink);
}

/// Adds that a name may have been meant.
#[tactic(auto, using(x_text::proofs::Adding::six))]
pub(crate) fn add_suggestion_line<S: Sink>(
    coloured: bool,
    line: u32,
    name: &[u8],
    pen: &mut Pen,
    sink: &mut S,
)
    ensures { Adds pen.old (S.state sink.old) pen.new (S.state sink.new)
        (help_line coloured line (Some (meant name.now))) }
{
    add_gutter(line, pen, sink);
    pen.add(b" | ", sink);
    add_painted(coloured, CYAN, b"help:", pen, sink);
    pen.add(b" ", sink);
    add_meant(name, pen, sink);
    pen.add(b"\n", sink);
}

/// Adds what helps, where there is something.
#[tactic(auto, using(x_text::proofs::Adding::six))]
pub(crate) fn add_help_line<S: Sink>(
    coloured: bool,
    line: u32,
    help: Option<&str>,
    pen: &mut Pen,
    sink: &mut S,
)
    ensures { Adds pen.old (S.state sink.old) pen.new (S.state sink.new)
        (help_line coloured line (option_map (λ h. h.now) help.entry)) }
{
    if let Some(help) = help {
        add_gutter(line, pen, sink);
        pen.add(b" | ", sink);
        add_painted(coloured, CYAN, b"help:", pen, sink);
        pen.add(b" ", sink);
        pen.add(help.as_bytes(), sink);
        pen.add(b"\n", sink);
    }
}
