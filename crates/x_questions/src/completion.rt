//! Which words can stand at a place.

ghost use Rattle.std.specs.Prelude.{◌≡◌, false, IfOk};
ghost use Rattle.serde_json.specs.View.{view};
ghost use Rattle.serde_json.specs.Written.{has_float};
ghost use Rattle.x_trees.specs.Collected.{view_name};
ghost use Rattle.x_trees.specs.View.{view_definition};
ghost use Rattle.x_names.specs.DeclarerTable.{first_in};
ghost use Rattle.x_questions.specs.Completing.{is_first, item_kind, item_number};

use crate::open_text::OpenText;
use serde_json::{Value, json};
use std::alloc::Global;
use std::str;
use x_frames::PlainList;
use x_item::{DeclaredName, Definition, Glossary, NameKind};
use x_lookups::{Expected, expected_at};
use x_names::Names;
use x_session::{Session, definitions};
use x_text::NoMemory;

/// The kinds of `CompletionItem`s.
#[derive(Clone, Copy, Debug, PartialEq, Eq)]
enum ItemKind {
    Class,
    Enum,
    Keyword,
    EnumMember,
    Constant,
    Struct,
}

impl ItemKind {
    /// Of a name that a definition declares.
    fn of_name(definition: &Definition, kind: NameKind) -> Option<ItemKind>
        ensures { result ≡ item_kind (view_definition definition.now) kind }
    {
        match kind {
            NameKind::Constant => Some(match definition {
                Definition::Const { .. } => ItemKind::Constant,
                _ => ItemKind::EnumMember,
            }),
            NameKind::Enum => Some(ItemKind::Enum),
            NameKind::Struct | NameKind::Union => Some(ItemKind::Struct),
            NameKind::Typedef => Some(ItemKind::Class),
            NameKind::Program => None,
        }
    }

    fn number(self) -> u32
        ensures { result ≡ item_number self }
    {
        match self {
            ItemKind::Class => 7,
            ItemKind::Enum => 13,
            ItemKind::Keyword => 14,
            ItemKind::EnumMember => 20,
            ItemKind::Constant => 21,
            ItemKind::Struct => 22,
        }
    }
}

/// The words that can stand at a place: `CompletionItem`s, first keywords, then names in the order of their
/// first declarers.
pub(crate) fn completion(alloc: Global, document: &OpenText, at: usize) -> Result<Value, NoMemory>
    ensures { IfOk result (λ v. has_float (view v) ≡ false) }
{
    let session = &document.compiled.session;
    let expected = expected_at(alloc, session, at)?;
    let mut list = PlainList::new(alloc);
    for keyword in expected.keywords() {
        add_item(alloc, &mut list, ItemKind::Keyword, keyword.text())?;
    }
    if expected.takes_names() {
        if expected == Expected::Constant {
            add_item(alloc, &mut list, ItemKind::Constant, b"TRUE")?;
            add_item(alloc, &mut list, ItemKind::Constant, b"FALSE")?;
        }
        add_names(alloc, &mut list, session, expected)?;
    }
    Ok(list.into_value())
}

/// Adds the names of a text that can stand where this is expected, each by its first declarer.
fn add_names(
    alloc: Global,
    list: &mut PlainList,
    session: &Session,
    expected: Expected,
) -> Result<(), NoMemory> {
    let definitions = definitions(alloc, session)?;
    let names = Names::keyed(alloc, session.hash_key(), &definitions)?;
    let mut glossary = Glossary::new(alloc);
    for item in 0..definitions.len() {
        if let Some(definition) = definitions[item] {
            glossary.read(alloc, definition)?;
            for place in 0..glossary.declared.len() {
                let declared = &glossary.declared[place];
                if is_first(&names, declared, item, place) {
                    add_name(alloc, list, definition, declared, expected)?;
                }
            }
        }
    }
    Ok(())
}

/// Adds a name that a definition declares, if it can stand where this is expected.
fn add_name(
    alloc: Global,
    list: &mut PlainList,
    definition: &Definition,
    declared: &DeclaredName,
    expected: Expected,
) -> Result<(), NoMemory> {
    match ItemKind::of_name(definition, declared.kind) {
        Some(kind) if expected.takes(declared.kind) => add_item(alloc, list, kind, &declared.name),
        _ => Ok(()),
    }
}

/// Whether a name that stands in this place among those of an item is declared nowhere before.
fn is_first(names: &Names, declared: &DeclaredName, item: usize, place: usize) -> bool
    ensures { let d = view_name declared.now in result ≡ is_first (first_in names.now d.name) item place }
{
    match names.first(&declared.name) {
        Some(first) => first.item == item && first.place == place,
        None => false,
    }
}

/// Adds a word.
fn add_item(
    alloc: Global,
    list: &mut PlainList,
    kind: ItemKind,
    word: &[u8],
) -> Result<(), NoMemory> {
    let kind = kind.number();
    let label = str::from_utf8(word).unwrap_or("?");
    list.push(json!(in alloc; {"kind": kind, "label": label})?)
}
