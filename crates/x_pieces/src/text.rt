//! The four texts of a `.x` file.

ghost use Rattle.std.specs.Prelude.{◌≡◌, ◌≤◌, ◌^◌, false, length, OnOk};
ghost use Rattle.std.specs.List.{flat_map};
ghost use Rattle.x_streams.specs.Writing.{Adds, IsWritten};
ghost use Rattle.x_pieces.specs.Texts.{epilogue, forwards, part_text, text};

use crate::prologue::{add_prologue, prologue_length};
use crate::{PieceList, Which};
use x_text::{Pen, Sink, WriteFault};

/// Writes a text, and takes no memory. `base` is the name that the text uses. After a fault the sink has
/// exactly its first `written` bytes; without one it still works.
pub fn write_text<L: PieceList, S: Sink>(
    which: Which,
    base: &[u8],
    list: &L,
    sink: &mut S,
) -> Result<(), WriteFault>
    ensures written { IsWritten result (S.state sink.old) (S.state sink.new)
        (text which base.now (L.parts list.now)) }
    ensures working { OnOk result ((S.state sink.new).failed ≡ false) }
{
    let mut pen = Pen::new();
    add_text(which, base, list, &mut pen, sink);
    pen.finish(sink)
}

/// Adds a text to what a pen writes.
pub fn add_text<L: PieceList, S: Sink>(
    which: Which,
    base: &[u8],
    list: &L,
    pen: &mut Pen,
    sink: &mut S,
)
    ensures { Adds pen.old (S.state sink.old) pen.new (S.state sink.new)
        (text which base.now (L.parts list.now)) }
{
    add_prologue(which, base, pen, sink);
    if which == Which::Header {
        add_forwards(list, pen, sink);
    }
    add_parts(which, list, pen, sink);
    pen.add(epilogue(which), sink);
}

/// What stands behind all items.
fn epilogue(which: Which) -> &'static [u8]
    ensures { result.now ≡ epilogue which }
{
    match which {
        Which::Header => b"#endif\n",
        _ => b"",
    }
}

/// Adds the forward lines of all items.
fn add_forwards<L: PieceList, S: Sink>(list: &L, pen: &mut Pen, sink: &mut S)
    ensures { Adds pen.old (S.state sink.old) pen.new (S.state sink.new)
        (forwards Which.Header (L.parts list.now)) }
{
    for index in 0..list.count() {
        if let Some(pieces) = list.pieces(index) {
            pen.add(pieces.forward(), sink);
        }
    }
}

/// Adds the lines and the piece of each item.
fn add_parts<L: PieceList, S: Sink>(which: Which, list: &L, pen: &mut Pen, sink: &mut S)
    ensures { Adds pen.old (S.state sink.old) pen.new (S.state sink.new)
        (flat_map (part_text which) (L.parts list.now)) }
{
    for index in 0..list.count() {
        pen.add(list.lines(index), sink);
        if let Some(pieces) = list.pieces(index) {
            pen.add(pieces.piece(which), sink);
        }
    }
}

/// How many bytes a text has.
pub fn text_length<L: PieceList>(which: Which, base: &[u8], list: &L) -> u128
    requires few { length (L.parts list.now) ≤ 2 ^ 60 }
    ensures { result ≡ length (text which base.now (L.parts list.now)) }
{
    let mut length = prologue_length(which, base) + epilogue(which).len() as u128;
    if which == Which::Header {
        length += forwards_length(list);
    }
    length + parts_length(which, list)
}

/// How many bytes the forward lines of all items have.
fn forwards_length<L: PieceList>(list: &L) -> u128
    requires few { length (L.parts list.now) ≤ 2 ^ 60 }
    ensures length { result ≡ length (forwards Which.Header (L.parts list.now)) }
    ensures small { result ≤ 2 ^ 124 }
{
    let mut length = 0;
    for index in 0..list.count() {
        if let Some(pieces) = list.pieces(index) {
            length += pieces.forward().len() as u128;
        }
    }
    length
}

/// How many bytes the lines and the pieces of all items have.
fn parts_length<L: PieceList>(which: Which, list: &L) -> u128
    requires few { length (L.parts list.now) ≤ 2 ^ 60 }
    ensures length { result ≡ length (flat_map (part_text which) (L.parts list.now)) }
    ensures small { result ≤ 2 ^ 125 }
{
    let mut length = 0;
    for index in 0..list.count() {
        length += list.lines(index).len() as u128;
        if let Some(pieces) = list.pieces(index) {
            length += pieces.piece(which).len() as u128;
        }
    }
    length
}
