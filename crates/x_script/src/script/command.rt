//! The commands of a script.
ghost use Rattle.std.specs.Prelude.{◌≡◌, ◌<◌, ◌∷◌, [], true, length, IfOk, IfSome, OnErr, IsTrue};
ghost use Rattle.std.specs.Prelude.{MatchOption, SomeIff, nat_lt, option_map};
ghost use Rattle.std.specs.Char.{is_ascii_hexdigit, is_ascii_digit, digit_value};
ghost use Rattle.std.specs.List.{list_all};
ghost use Rattle.std.specs.Str.Parse.{digits_value};
ghost use Rattle.x_script.specs.Commands.{edit_by, command_of, words_of, one_word, edit_line};
ghost use Rattle.x_lines.specs.Numbers.{is_number};
ghost use Rattle.x_script.specs.Commands.{is_hex, bytes_of, asked_if, clashes_asked, dump_by, dump_asked};
ghost use Rattle.x_script.specs.Commands.{explain_asked};

use memchr::memchr;
use std::alloc::Global;
use std::marker::Model;
use x_session::Which;
use x_text::NoMemory;

/// The bytes that an edit puts in. They are seen as their list.
#[derive(Drop)]
pub struct Insert {
    bytes: Vec<u8>,
}

impl Model for Insert {
    ghost use Rattle.std.specs.Prelude.{ℕ, List};

    ghost Value = { List ℕ };

    ghost view = { λ insert. insert.bytes.items };
}

impl Insert {
    fn of(bytes: Vec<u8>) -> Insert
        ensures { result ≡ bytes.items }
    {
        Insert { bytes }
    }

    /// The bytes.
    pub fn bytes(&self) -> &[u8]
        ensures { result.now ≡ self.now }
    {
        &self.bytes
    }
}

/// What a line of a script asks for.
#[derive(Drop)]
pub enum Command {
    /// `edit START END` or `edit START END HEX`: other bytes in place of those from `start` to before `end`.
    Edit {
        /// The first byte that goes.
        start: usize,
        /// The first byte behind them that stays.
        end: usize,
        /// The bytes that come.
        insert: Insert,
    },
    /// `tokens`: the tokens of the text.
    Tokens,
    /// `definitions`: the definitions of the text.
    Definitions,
    /// `faults`: the faults of the text.
    Faults,
    /// `header`, `routines`, `stubs` or `table`: a text that is generated.
    Text(Which),
    /// No command.
    Bad,
}

/// The most digits of a number.
const MOST_DIGITS: usize = 9;

/// What this line, given without its line feed, asks for.
///
/// # Errors
/// No memory for the bytes that an edit inserts; a line of three words or fewer takes none.
pub fn parse_command(alloc: Global, line: &[u8]) -> Result<Command, NoMemory>
    ensures asks { IfOk result (λ command. command ≡ command_of line.now) }
    ensures memory { OnErr result (3 < length (words_of line.now)) }
{
    let Some((name, words)) = split_word(line) else {
        return Ok(one_word(line));
    };
    if name == b"edit".as_slice() {
        parse_edit(alloc, words)
    } else {
        Ok(Command::Bad)
    }
}

/// The type that a line asks to show a value of, by `dump TYPE` or `dump TYPE HEX`, and the hexadecimal
/// digits of the message; `None` is answered of any other line.
pub fn dump_words(line: &[u8]) -> Option<(&[u8], &[u8])>
    ensures asked { option_map (λ p. (p.0.now, bytes_of p.1.now)) result ≡ dump_asked line.now }
    ensures digits { IfSome result (λ p. 0 < length p.1.now → is_hex p.1.now ≡ true) }
{
    let Some((word, words)) = split_word(line) else {
        return None;
    };
    if word == b"dump".as_slice() {
        value_words(words)
    } else {
        None
    }
}

/// Whether a line asks to explain the faults.
pub(crate) fn asks_to_explain(line: &[u8]) -> bool
    ensures { result ≡ explain_asked line.now }
{
    line == b"explain".as_slice()
}

/// Whether a line asks for the names that clash in C.
pub(crate) fn asks_for_clashes(line: &[u8]) -> bool
    ensures { result ≡ clashes_asked line.now }
{
    line == b"clashes".as_slice()
}

/// The type and the digits that the words behind `dump` name.
fn value_words(words: &[u8]) -> Option<(&[u8], &[u8])>
    ensures asked { option_map (λ p. (p.0.now, bytes_of p.1.now)) result ≡ dump_by (words_of words.now) }
    ensures digits { IfSome result (λ p. 0 < length p.1.now → is_hex p.1.now ≡ true) }
{
    let Some((name, hex)) = split_word(words) else {
        return named(words, &[]);
    };
    if is_hex(hex) { named(name, hex) } else { None }
}

/// The two, if the name has a byte.
fn named<'l>(name: &'l [u8], hex: &'l [u8]) -> Option<(&'l [u8], &'l [u8])>
    requires { 0 < length hex.now → is_hex hex.now ≡ true }
    ensures asked { option_map (λ p. (p.0.now, bytes_of p.1.now)) result
        ≡ asked_if (nat_lt 0 (length name.now)) name.now (bytes_of hex.now) }
    ensures digits { IfSome result (λ p. 0 < length p.1.now → is_hex p.1.now ≡ true) }
{
    if name.is_empty() {
        None
    } else {
        Some((name, hex))
    }
}

/// The bytes that the digits write; without digits there are none.
pub(crate) fn message_bytes(alloc: Global, hex: &[u8]) -> Result<Vec<u8>, NoMemory>
    requires { 0 < length hex.now → is_hex hex.now ≡ true }
    ensures { IfOk result (λ bytes. bytes.items ≡ bytes_of hex.now) }
{
    if hex.is_empty() {
        return Ok(Vec::new(alloc));
    }
    hex_bytes(alloc, hex)
}

/// What the words behind `edit` ask for.
fn parse_edit(alloc: Global, words: &[u8]) -> Result<Command, NoMemory>
    ensures asks { IfOk result (λ command. command ≡ edit_by (words_of words.now)) }
    ensures memory { OnErr result (2 < length (words_of words.now)) }
{
    let Some((start, rest)) = split_word(words) else {
        return Ok(Command::Bad);
    };
    let Some((end, hex)) = split_word(rest) else {
        return Ok(edit(start, rest, Vec::new(alloc)));
    };
    if is_hex(hex) {
        Ok(edit(start, end, hex_bytes(alloc, hex)?))
    } else {
        Ok(Command::Bad)
    }
}

/// The bytes before the first space, and those behind it, if there is one.
fn split_word(line: &[u8]) -> Option<(&[u8], &[u8])>
    ensures { MatchOption result (words_of line.now ≡ line.now ∷ [])
        (λ p. words_of line.now ≡ p.0.now ∷ words_of p.1.now) }
{
    let space = memchr(b' ', line)?;
    Some((&line[..space], &line[space + 1..]))
}

/// The command of a line that is one word.
fn one_word(line: &[u8]) -> Command
    ensures { result ≡ one_word line.now }
{
    if line == b"tokens".as_slice() {
        Command::Tokens
    } else if line == b"definitions".as_slice() {
        Command::Definitions
    } else if line == b"faults".as_slice() {
        Command::Faults
    } else if line == b"header".as_slice() {
        Command::Text(Which::Header)
    } else if line == b"routines".as_slice() {
        Command::Text(Which::Routines)
    } else if line == b"stubs".as_slice() {
        Command::Text(Which::Stubs)
    } else if line == b"table".as_slice() {
        Command::Text(Which::Table)
    } else {
        Command::Bad
    }
}

/// The edit between these numbers, if they are numbers.
fn edit(start: &[u8], end: &[u8], insert: Vec<u8>) -> Command
    ensures { result ≡ edit_line start.now end.now insert.items }
{
    match (number(start), number(end)) {
        (Some(start), Some(end)) => Command::Edit {
            start,
            end,
            insert: Insert::of(insert),
        },
        _ => Command::Bad,
    }
}

/// What a number says; `None` is answered of what is no number.
fn number(word: &[u8]) -> Option<usize>
    ensures { SomeIff result (IsTrue (is_number word.now)) (digits_value 10 word.now) }
{
    if word.is_empty() || word.len() > MOST_DIGITS || !all_digits(word) {
        return None;
    }
    let mut number = 0;
    for digit in word {
        number = 10 * number + usize::from(*digit - b'0');
    }
    Some(number)
}

fn all_digits(word: &[u8]) -> bool
    ensures { result ≡ list_all is_ascii_digit word.now }
{
    word.iter().all(|byte| byte.is_ascii_digit())
}

/// Whether a word is one or more pairs of hexadecimal digits.
fn is_hex(word: &[u8]) -> bool
    ensures { result ≡ is_hex word.now }
{
    !word.is_empty() && word.len() % 2 == 0 && all_hex_digits(word)
}

fn all_hex_digits(word: &[u8]) -> bool
    ensures { result ≡ list_all is_ascii_hexdigit word.now }
{
    word.iter().all(|byte| byte.is_ascii_hexdigit())
}

/// The bytes that pairs of hexadecimal digits write.
fn hex_bytes(alloc: Global, word: &[u8]) -> Result<Vec<u8>, NoMemory>
    requires { is_hex word.now ≡ true }
    ensures { IfOk result (λ bytes. bytes.items ≡ bytes_of word.now) }
{
    let mut bytes = Vec::new(alloc);
    for at in 0..word.len() / 2 {
        bytes.push(16 * hex_digit(word[2 * at]) + hex_digit(word[2 * at + 1]))?;
    }
    Ok(bytes)
}

fn hex_digit(byte: u8) -> u8
    requires { is_ascii_hexdigit byte ≡ true }
    ensures value { result ≡ digit_value byte }
    ensures small { result < 16 }
{
    match byte {
        b'0'..=b'9' => byte - b'0',
        b'a'..=b'f' => byte - b'a' + 10,
        _ => byte - b'A' + 10,
    }
}
