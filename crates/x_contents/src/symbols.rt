//! What a document defines, as an outline shows it.

ghost use Rattle.std.specs.Prelude.{◌≡◌, ◌++◌, ℕ, List, map, option_map, slice_get, unwrap_or, IfOk, OnOk};
ghost use Rattle.serde_json.specs.Data.{array};
ghost use Rattle.serde_json.specs.View.{items_of};
ghost use Rattle.serde_json.specs.Written.{compact_text};
ghost use Rattle.x_lex.specs.Places.{lexeme};
ghost use Rattle.x_trees.specs.View.{tree_at};
ghost use Rattle.x_session.specs.Session.{Compiles};
ghost use Rattle.x_lookups.specs.Parts.{parts_of};
ghost use Rattle.x_contents.specs.Kept.{spelt};
ghost use Rattle.x_contents.specs.Reading.{levels_of, outline_of};
ghost use Rattle.x_contents.specs.Symbols.{children_in, is_below, last_of, left_in, symbol_kind, symbols_in};
ghost use Rattle.x_contents.specs.Symbols.{token_range, with_definition, with_part, with_sibling, with_told};
ghost use Rattle.x_contents.specs.SymbolTexts.{list_text, no_text, range_text, shown_text, text_by};
ghost use Rattle.x_contents.specs.SymbolTexts.{text_of, with_text};

use crate::phrased_text::PhrasedText;
use crate::phrases::Phrase;
use std::alloc::Global;
use x_item::{Definition, next_item};
use x_lex::Token;
use x_lookups::{Part, PartKind, parts_of};
use x_positions::{Encoding, Places, Range};
use x_session::Session;
use x_text::{NoMemory, Source};

/// The room for the first symbols of a list, each of about 60 bytes. It grows where there are more.
const ROOM: usize = 512;

/// What a document defines: a `DocumentSymbol` of each definition, with what stands in it.
pub(crate) fn symbols(
    alloc: Global,
    encoding: Encoding,
    shown: &Source,
    session: &Session,
) -> Result<PhrasedText, NoMemory>
    ensures { IfOk result (λ text. Compiles session.now.known session.now.text
        (λ items. spelt text ≡ compact_text (array (items_of (symbols_in encoding shown.now items))))) }
{
    let mut text = first_list(alloc)?;
    let mut walk = session.tokens();
    let mut tokens = Vec::new(alloc);
    let mut ranges = Vec::new(alloc);
    let mut places = Places::of(encoding, shown.bytes());
    for item in 0..session.item_count() {
        next_item(&mut tokens, &mut walk)?;
        put_ranges(&mut places, &tokens, &mut ranges)?;
        let definition = session.definition(item);
        write_parsed(alloc, definition, &tokens, &ranges, &mut text)?;
    }
    text.end_list()?;
    Ok(text)
}

/// Finds the ranges of tokens.
fn put_ranges(
    places: &mut Places,
    tokens: &[Token],
    ranges: &mut Vec<Range>,
) -> Result<(), NoMemory>
    ensures ranges { OnOk result (ranges.new.items
        ≡ map (token_range places.old.encoding places.old.text) (map lexeme tokens.now)) }
    ensures same { places.new ≡ places.old }
{
    ranges.clear();
    for token in tokens {
        ranges.push(Range {
            start: places.position(token.start),
            end: places.position(token.end),
        })?;
    }
    Ok(())
}

/// Writes the symbol of an item, if it has a definition.
fn write_parsed(
    alloc: Global,
    definition: Option<&Definition>,
    tokens: &[Token],
    ranges: &[Range],
    text: &mut PhrasedText,
) -> Result<(), NoMemory>
    ensures { OnOk result (spelt text.new
        ≡ with_text (spelt text.old) (map lexeme tokens.now) ranges.now (tree_at definition.entry)) }
{
    match definition {
        Some(_) => write_definition(alloc, tokens, ranges, text),
        None => Ok(()),
    }
}

/// Writes the symbol of a definition.
fn write_definition(
    alloc: Global,
    tokens: &[Token],
    ranges: &[Range],
    text: &mut PhrasedText,
) -> Result<(), NoMemory>
    ensures { OnOk result (spelt text.new ≡ with_definition no_text
        (text_of (map lexeme tokens.now) ranges.now) (spelt text.old) (parts_of (map lexeme tokens.now))) }
{
    let mut levels = Vec::new(alloc);
    for part in &parts_of(alloc, tokens)? {
        write_part(alloc, tokens, ranges, part, &mut levels, text)?;
    }
    Ok(())
}

/// Writes the symbol of a part: behind those of whole definitions, or those whose parent is yet to come.
fn write_part(
    alloc: Global,
    tokens: &[Token],
    ranges: &[Range],
    part: &Part,
    levels: &mut Vec<Level>,
    text: &mut PhrasedText,
) -> Result<(), NoMemory>
    ensures { OnOk result (outline_of levels.new text.new ≡ with_part no_text
        (text_of (map lexeme tokens.now) ranges.now) (outline_of levels.old text.old) part.now) }
{
    let Some(mut children) = take_level(levels, part.depth) else {
        return write_told(alloc, tokens, ranges, part, None, levels, text);
    };
    children.end_list()?;
    write_told(alloc, tokens, ranges, part, Some(&children), levels, text)
}

/// Writes the symbol of a part, with this list of those that stand in it, if there are any.
fn write_told(
    alloc: Global,
    tokens: &[Token],
    ranges: &[Range],
    part: &Part,
    children: Option<&PhrasedText>,
    levels: &mut Vec<Level>,
    text: &mut PhrasedText,
) -> Result<(), NoMemory>
    ensures { OnOk result (outline_of levels.new text.new ≡ with_told no_text (outline_of levels.old text.old)
        part.now.depth (text_by part.now.kind (slice_get (map lexeme tokens.now) part.now.name)
        (slice_get ranges.now part.now.first) (slice_get ranges.now part.now.name)
        (slice_get ranges.now part.now.last)
        (list_text (option_map (λ list. spelt list.now) children.entry)))) }
{
    let Some(shown) = shown_part(tokens, ranges, part) else {
        return Ok(());
    };
    if part.depth == 0 {
        write_symbol(alloc, &shown, children, text)
    } else {
        add_to_level(alloc, levels, part.depth, &shown, children)
    }
}

/// The text of symbols at one depth, behind one another, whose parent is yet to come: a list that goes on.
#[derive(Drop)]
struct Level {
    depth: usize,
    text: PhrasedText,
}

/// Takes the text of what stands in a part at a depth, if there is any.
fn take_level(levels: &mut Vec<Level>, depth: usize) -> Option<PhrasedText>
    ensures children { unwrap_or (option_map (λ text. spelt text) result) no_text
        ≡ children_in no_text (levels_of levels.old.items) depth }
    ensures left { levels_of levels.new.items ≡ left_in (levels_of levels.old.items) depth }
{
    if is_below(levels, depth) {
        if let Some(level) = levels.pop() {
            return Some(level.text);
        }
    }
    None
}

/// Whether the last symbols stand below a depth.
fn is_below(levels: &[Level], depth: usize) -> bool
    ensures { result ≡ is_below (last_of (levels_of levels.now)) depth }
{
    match levels.last() {
        Some(level) => level.depth > depth,
        None => false,
    }
}

/// Adds the text of a symbol at a depth, behind those that stand there.
fn add_to_level(
    alloc: Global,
    levels: &mut Vec<Level>,
    depth: usize,
    shown: &Shown,
    children: Option<&PhrasedText>,
) -> Result<(), NoMemory>
    ensures { OnOk result (levels_of levels.new.items ≡ with_sibling no_text (levels_of levels.old.items)
        depth (shown_text shown.now (list_text (option_map (λ list. spelt list.now) children.entry)))) }
{
    let mut text = take_siblings(alloc, levels, depth.saturating_sub(1))?;
    write_symbol(alloc, shown, children, &mut text)?;
    levels.push(Level { depth, text })?;
    Ok(())
}

/// Takes the text of what stands in a part at a depth, as a list that goes on: a new one where there is none.
fn take_siblings(
    alloc: Global,
    levels: &mut Vec<Level>,
    depth: usize,
) -> Result<PhrasedText, NoMemory>
    ensures children { IfOk result
        (λ text. spelt text ≡ children_in no_text (levels_of levels.old.items) depth) }
    ensures left { OnOk result (levels_of levels.new.items ≡ left_in (levels_of levels.old.items) depth) }
{
    match take_level(levels, depth) {
        Some(text) => Ok(text),
        None => first_list(alloc),
    }
}

/// A list in which nothing stands yet, with room for the first.
fn first_list(alloc: Global) -> Result<PhrasedText, NoMemory>
    ensures { IfOk result (λ text. spelt text ≡ no_text) }
{
    let mut text = PhrasedText::with_capacity(alloc, ROOM)?;
    text.add(b"[")?;
    Ok(text)
}

/// A part as it is shown.
#[derive(Drop)]
struct Shown<'t> {
    kind: PartKind,
    name: &'t [u8],
    range: Range,
    /// That of its name.
    selection: Range,
}

/// How a part is shown.
fn shown_part<'t>(tokens: &[Token<'t>], ranges: &[Range], part: &Part) -> Option<Shown<'t>>
    ensures { (children : List ℕ) → option_map (λ shown. shown_text shown children) result
        ≡ text_by part.now.kind (slice_get (map lexeme tokens.now) part.now.name)
        (slice_get ranges.now part.now.first) (slice_get ranges.now part.now.name)
        (slice_get ranges.now part.now.last) children }
{
    let token = tokens.get(part.name)?;
    let first = ranges.get(part.first)?;
    let name = ranges.get(part.name)?;
    let last = ranges.get(part.last)?;
    Some(Shown {
        kind: part.kind,
        name: token.text,
        range: Range {
            start: first.start,
            end: last.end,
        },
        selection: *name,
    })
}

/// Writes a symbol, with this list of those that stand in it, if there are any, and a comma behind it.
fn write_symbol(
    alloc: Global,
    shown: &Shown,
    children: Option<&PhrasedText>,
    text: &mut PhrasedText,
) -> Result<(), NoMemory>
    ensures { OnOk result (spelt text.new ≡ spelt text.old
        ++ shown_text shown.now (list_text (option_map (λ list. spelt list.now) children.entry))) }
{
    text.add_phrase(Phrase::Children)?;
    write_list(children, text)?;
    text.add_phrase(Phrase::Kind)?;
    text.add_number(symbol_kind(shown.kind))?;
    text.add_phrase(Phrase::Name)?;
    text.add_string(alloc, shown.name)?;
    text.add_phrase(Phrase::Range)?;
    write_range(&shown.range, text)?;
    text.add_phrase(Phrase::Selection)?;
    write_range(&shown.selection, text)?;
    text.add(b"},")?;
    Ok(())
}

/// Writes a list of symbols, or one of none.
fn write_list(list: Option<&PhrasedText>, text: &mut PhrasedText) -> Result<(), NoMemory>
    ensures { OnOk result
        (spelt text.new ≡ spelt text.old ++ list_text (option_map (λ list. spelt list.now) list.entry)) }
{
    match list {
        Some(list) => text.add_text(list)?,
        None => text.add(b"[]")?,
    }
    Ok(())
}

/// Writes a range.
fn write_range(range: &Range, text: &mut PhrasedText) -> Result<(), NoMemory>
    ensures { OnOk result (spelt text.new ≡ spelt text.old ++ range_text range.now range.now) }
{
    text.add_phrase(Phrase::End)?;
    text.add_number(range.end.character)?;
    text.add_phrase(Phrase::Line)?;
    text.add_number(range.end.line)?;
    text.add_phrase(Phrase::Start)?;
    text.add_number(range.start.character)?;
    text.add_phrase(Phrase::Line)?;
    text.add_number(range.start.line)?;
    text.add_phrase(Phrase::RangeEnd)?;
    Ok(())
}

/// The `SymbolKind` of LSP.
fn symbol_kind(kind: PartKind) -> usize
    ensures { result ≡ symbol_kind kind }
{
    match kind {
        PartKind::Program => 2,
        PartKind::Version => 3,
        PartKind::Typedef => 5,
        PartKind::Procedure => 6,
        PartKind::Field => 8,
        PartKind::Enum => 10,
        PartKind::Constant => 14,
        PartKind::Enumerator => 22,
        PartKind::Struct | PartKind::Union => 23,
    }
}
