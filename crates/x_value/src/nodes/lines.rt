//! The lines that the nodes of a value and a fault are written as.

ghost use Rattle.std.specs.Prelude.{◌≡◌, ◌<◌, ◌≤◌, ◌*◌, ◌++◌, Some, codes, decimal, length, slice_get, take};
ghost use Rattle.std.specs.List.{flat_map, list_all};
ghost use Rattle.x_streams.specs.Writing.{Adds};
ghost use Rattle.x_value.specs.FaultTexts.{read_text, fault_line};
ghost use Rattle.x_value.specs.Lines.{hex_digit, hex_byte, hex_text, quoted_byte, quoted_text, is_plain};
ghost use Rattle.x_value.specs.Lines.{label_text, leaf_text, truth_text, node_line, node_lines};
ghost use Rattle.x_value.specs.Shown.{Node as Shown};
ghost use Rattle.x_value.specs.NodeList.{shown_label, shown_leaf, shown_node};

use crate::{Dump, Label, Leaf, Node, ReadCode, ReadFault};
use itoa::{Buffer, Integer};
use x_text::{Pen, Sink};

/// How many bytes are written in hexadecimal at a time.
const CHUNK: usize = 64;

/// The digits of so many bytes.
const DIGITS: usize = 2 * CHUNK;

/// Adds a number in decimal.
#[inline(always)]
pub fn add_number<I: Integer, S: Sink>(number: I, pen: &mut Pen, sink: &mut S)
    ensures { Adds pen.old (S.state sink.old) pen.new (S.state sink.new) (I.text number) }
{
    let mut buffer = Buffer::new();
    pen.add(buffer.format(number).as_bytes(), sink);
}

/// The lower-case hexadecimal digit of a number.
fn hex_digit(number: u8) -> u8
    requires { number < 16 }
    ensures { result ≡ hex_digit number }
{
    if number < 10 {
        b'0' + number
    } else {
        b'a' + (number - 10)
    }
}

/// Adds the two hexadecimal digits of a byte.
fn add_hex_byte<S: Sink>(byte: u8, pen: &mut Pen, sink: &mut S)
    ensures { Adds pen.old (S.state sink.old) pen.new (S.state sink.new) (hex_byte byte) }
{
    pen.add(&[hex_digit(byte / 16), hex_digit(byte % 16)], sink);
}

/// The two hexadecimal digits of each byte, and other bytes behind them.
#[inline(always)]
fn hex_digits(bytes: &[u8]) -> [u8; DIGITS]
    requires { length bytes.now ≤ CHUNK }
    ensures { take (2 * length bytes.now) result ≡ flat_map hex_byte bytes.now }
{
    let mut digits = [0; DIGITS];
    for index in 0..bytes.len() {
        let byte = bytes[index];
        digits[2 * index] = hex_digit(byte / 16);
        digits[2 * index + 1] = hex_digit(byte % 16);
    }
    digits
}

/// Adds the two hexadecimal digits of each byte, those of many bytes at a time.
fn add_hex_bytes<S: Sink>(bytes: &[u8], pen: &mut Pen, sink: &mut S)
    ensures { Adds pen.old (S.state sink.old) pen.new (S.state sink.new) (flat_map hex_byte bytes.now) }
{
    for chunk in bytes.chunks(CHUNK) {
        let digits = hex_digits(chunk);
        pen.add(&digits[..2 * chunk.len()], sink);
    }
}

/// Adds a byte as it stands between quotes.
fn add_quoted_byte<S: Sink>(byte: u8, pen: &mut Pen, sink: &mut S)
    ensures { Adds pen.old (S.state sink.old) pen.new (S.state sink.new) (quoted_byte byte) }
{
    if byte == b'"' || byte == b'\\' {
        pen.add(&[b'\\', byte], sink);
    } else if 32 <= byte && byte <= 126 {
        pen.add(&[byte], sink);
    } else {
        pen.add(b"\\x", sink);
        add_hex_byte(byte, pen, sink);
    }
}

/// Whether a byte stands between quotes as itself.
fn is_plain(byte: u8) -> bool
    ensures { result ≡ is_plain byte }
{
    32 <= byte && byte <= 126 && byte != b'"' && byte != b'\\'
}

fn are_plain(bytes: &[u8]) -> bool
    ensures { result ≡ list_all is_plain bytes.now }
{
    bytes.iter().all(|byte| is_plain(*byte))
}

/// Adds bytes as they stand between quotes, one at a time.
fn add_each_quoted<S: Sink>(bytes: &[u8], pen: &mut Pen, sink: &mut S)
    ensures { Adds pen.old (S.state sink.old) pen.new (S.state sink.new) (flat_map quoted_byte bytes.now) }
{
    for byte in bytes {
        add_quoted_byte(*byte, pen, sink);
    }
}

/// Adds bytes as they stand between quotes.
fn add_quoted_bytes<S: Sink>(bytes: &[u8], pen: &mut Pen, sink: &mut S)
    ensures { Adds pen.old (S.state sink.old) pen.new (S.state sink.new) (flat_map quoted_byte bytes.now) }
{
    if are_plain(bytes) {
        pen.add(bytes, sink);
    } else {
        add_each_quoted(bytes, pen, sink);
    }
}

/// Adds what a node is called.
#[tactic(auto, using(x_text::proofs::Adding::three))]
#[inline(always)]
fn add_label<S: Sink>(label: &Label, pen: &mut Pen, sink: &mut S)
    ensures { Adds pen.old (S.state sink.old) pen.new (S.state sink.new)
        (label_text (shown_label label.now)) }
{
    match label {
        Label::Name(name) => pen.add(name, sink),
        Label::Index(index) => {
            pen.add(b"[", sink);
            add_number(*index, pen, sink);
            pen.add(b"]", sink);
        }
        Label::Star => pen.add(b"*", sink),
        Label::Arguments => pen.add(b"args", sink),
        Label::Results => pen.add(b"results", sink),
    }
}

/// Adds an enumerator, `NAME (NUMBER)`.
#[tactic(auto, using(x_text::proofs::Adding::four))]
#[inline(always)]
fn add_enumerator<I: Integer, S: Sink>(name: &[u8], number: I, pen: &mut Pen, sink: &mut S)
    ensures { Adds pen.old (S.state sink.old) pen.new (S.state sink.new)
        (name.now ++ codes " (" ++ I.text number ++ codes ")") }
{
    pen.add(name, sink);
    pen.add(b" (", sink);
    add_number(number, pen, sink);
    pen.add(b")", sink);
}

/// Adds `array N`.
#[tactic(auto, using(x_text::proofs::Adding::two))]
fn add_array<S: Sink>(count: u32, pen: &mut Pen, sink: &mut S)
    ensures { Adds pen.old (S.state sink.old) pen.new (S.state sink.new) (codes "array " ++ decimal count) }
{
    pen.add(b"array ", sink);
    add_number(count, pen, sink);
}

/// Adds bytes in hexadecimal, `0x` and two lower-case digits each.
#[tactic(auto, using(x_text::proofs::Adding::two))]
pub fn add_hex<S: Sink>(bytes: &[u8], pen: &mut Pen, sink: &mut S)
    ensures { Adds pen.old (S.state sink.old) pen.new (S.state sink.new) (hex_text bytes.now) }
{
    pen.add(b"0x", sink);
    add_hex_bytes(bytes, pen, sink);
}

/// Adds bytes between quotes.
#[tactic(auto, using(x_text::proofs::Adding::three))]
fn add_quoted<S: Sink>(bytes: &[u8], pen: &mut Pen, sink: &mut S)
    ensures { Adds pen.old (S.state sink.old) pen.new (S.state sink.new) (quoted_text bytes.now) }
{
    pen.add(b"\"", sink);
    add_quoted_bytes(bytes, pen, sink);
    pen.add(b"\"", sink);
}

/// The word for a `bool`.
fn truth_word(truth: bool) -> &'static str
    ensures { result.now ≡ truth_text truth }
{
    if truth { "TRUE" } else { "FALSE" }
}

/// Adds what stands at a node.
#[inline(always)]
fn add_leaf<S: Sink>(leaf: &Leaf, pen: &mut Pen, sink: &mut S)
    ensures { Adds pen.old (S.state sink.old) pen.new (S.state sink.new) (leaf_text (shown_leaf leaf.now)) }
{
    match leaf {
        Leaf::Signed(number) => add_number(*number, pen, sink),
        Leaf::Unsigned(number) => add_number(*number, pen, sink),
        Leaf::Truth(truth) => pen.add(truth_word(*truth).as_bytes(), sink),
        Leaf::Enumerator(name, number) => add_enumerator(name, *number, pen, sink),
        Leaf::Hex(bytes) => add_hex(bytes, pen, sink),
        Leaf::Text(bytes) => add_quoted(bytes, pen, sink),
        Leaf::Array(count) => add_array(*count, pen, sink),
        Leaf::Null => pen.add(b"null", sink),
        Leaf::Link => pen.add(b"link", sink),
        Leaf::Struct => pen.add(b"struct", sink),
        Leaf::Union => pen.add(b"union", sink),
        Leaf::Void => pen.add(b"void", sink),
    }
}

/// Adds the line of a node, `LEVEL LABEL = TEXT`.
#[tactic(auto, using(x_text::proofs::Adding::six))]
#[inline(always)]
fn add_node<S: Sink>(node: &Node, pen: &mut Pen, sink: &mut S)
    ensures { Adds pen.old (S.state sink.old) pen.new (S.state sink.new) (node_line (shown_node node.now)) }
{
    add_number(node.level, pen, sink);
    pen.add(b" ", sink);
    add_label(&node.label, pen, sink);
    pen.add(b" = ", sink);
    add_leaf(&node.leaf, pen, sink);
    pen.add(b"\n", sink);
}

impl Dump<'_> {
    /// Adds the lines of the nodes, in their order, to what is written.
    pub fn add_lines<S: Sink>(&self, pen: &mut Pen, sink: &mut S)
        ensures { Adds pen.old (S.state sink.old) pen.new (S.state sink.new) (node_lines self.now) }
    {
        for index in 0..self.len() {
            self.add_line_at(index, pen, sink);
        }
    }

    /// Adds the line of the node at a place.
    fn add_line_at<S: Sink>(&self, index: usize, pen: &mut Pen, sink: &mut S)
        requires { index < length self.now }
        ensures { (n : Shown) × (slice_get self.now index ≡ Some n)
            × Adds pen.old (S.state sink.old) pen.new (S.state sink.new) (node_line n) }
    {
        if let Some(node) = self.get(index) {
            add_node(&node, pen, sink);
        }
    }
}

impl ReadCode {
    /// The number and the name of the reason, as they are printed.
    pub fn text(self) -> &'static str
        ensures { result.now ≡ read_text self }
    {
        match self {
            ReadCode::Short => "50 Short",
            ReadCode::BadBool => "51 BadBool",
            ReadCode::BadEnum => "52 BadEnum",
            ReadCode::NoArm => "53 NoArm",
            ReadCode::TooMany => "54 TooMany",
            ReadCode::BadPad => "55 BadPad",
            ReadCode::TooDeep => "56 TooDeep",
            ReadCode::Trailing => "57 Trailing",
            ReadCode::NoMemory => "58 NoMemory",
        }
    }
}

impl ReadFault {
    /// Adds the line of the fault, `fault CODE NAME at N`, to what is written.
    #[tactic(auto, using(x_text::proofs::Adding::five))]
    pub fn add_line<S: Sink>(&self, pen: &mut Pen, sink: &mut S)
        ensures { Adds pen.old (S.state sink.old) pen.new (S.state sink.new)
            (fault_line self.now.at self.now.code) }
    {
        pen.add(b"fault ", sink);
        pen.add(self.code.text().as_bytes(), sink);
        pen.add(b" at ", sink);
        add_number(self.at, pen, sink);
        pen.add(b"\n", sink);
    }
}
