//! Whether a definition leads to a name that a text takes from C.

ghost use Rattle.std.specs.Prelude.{◌≡◌, ◌<◌, [], ◌∷◌, ℕ, List, IfOk, OnOk, length, map, option_map};
ghost use Rattle.x_trees.specs.Collected.{view_mention};
ghost use Rattle.x_trees.specs.View.{tree_at};
ghost use Rattle.x_names.specs.DeclarerTable.{first_in};
ghost use Rattle.x_compile.specs.Known.{known_names};
ghost use Rattle.x_session.specs.Session.{Compiles};
ghost use Rattle.x_session.specs.DeclaredNames.{spot_at, word_of_item};
ghost use Rattle.x_prelude.specs.Leading.{AreLed, IsForeignUseBy, declaring_all, first_led, foreign_uses};
ghost use Rattle.x_prelude.specs.Reaching.{AreNamesOf, AreReached, GoesOnTo, IsFirstLed, LeadsWithin};
ghost use Rattle.x_prelude.specs.Reaching.{foreign_word, is_marked, occurrence_place};

use crate::definition::{FromC, is_type};
use crate::lacking::is_lacking;
use std::alloc::Global;
use x_compile::KnownDefinitions;
use x_names::Names;
use x_session::{DeclaredNames, Session, Spot, definitions, names};
use x_text::NoMemory;
use x_trees::{Definition, Glossary, Mention};

/// What was reached of the items of a text.
#[derive(Drop)]
struct Reached {
    /// Of each item whether it was.
    marks: Vec<bool>,
    /// Those that were, one after another.
    order: Vec<usize>,
}

/// The place where the definition of a name leads to a name first that the text takes from C behind what is
/// known, in the order of the text; types of the table are left out. It takes time in proportion to the text.
///
/// # Errors
///
/// [`NoMemory`] where a table or a list could not grow.
pub(crate) fn foreign_use(
    alloc: Global,
    session: &Session,
    known: &KnownDefinitions,
    from_c: FromC,
    name: &[u8],
) -> Result<Option<Spot>, NoMemory>
    ensures { IfOk result (λ spot. Compiles session.now.known session.now.text (λ items.
        IsForeignUseBy (known_names known.now) from_c session.now.text items name.now spot)) }
{
    // So many tokens fit, and no definition has more words.
    let _ = session.token_count();
    let names = names(alloc, session)?;
    if !from_c.foreign {
        return Ok(None);
    }
    let Some(declarer) = names.first(name) else {
        return Ok(None);
    };
    let definitions = definitions(alloc, session)?;
    match first_led(alloc, &definitions, &names, known, from_c, declarer.item)? {
        Some((item, word)) => spot_in(alloc, session, item, word),
        None => Ok(None),
    }
}

/// Where a word of an item starts.
fn spot_in(
    alloc: Global,
    session: &Session,
    item: usize,
    word: usize,
) -> Result<Option<Spot>, NoMemory>
    ensures { IfOk result (λ spot. Compiles session.now.known session.now.text (λ items.
        spot ≡ option_map (λ t. spot_at session.now.text t.start) (word_of_item items item word))) }
{
    let table = DeclaredNames::of(alloc, session)?;
    Ok(table.word(item, word))
}

/// The item and the word of the first name of C, in no table, that one of them leads to.
fn first_led(
    alloc: Global,
    definitions: &[Option<&Definition>],
    names: &Names,
    known: &KnownDefinitions,
    from_c: FromC,
    from: usize,
) -> Result<Option<(usize, usize)>, NoMemory>
    requires from { from < length definitions.now }
    requires within { LeadsWithin (length definitions.now) (first_in names.now) }
    ensures { IfOk result (λ found. AreNamesOf (map tree_at definitions.now) (first_in names.now)
        → IsFirstLed from_c (known_names known.now) (map tree_at definitions.now) from found) }
{
    let marks = led_from(alloc, definitions, names, from)?;
    first_marked(alloc, definitions, names, known, from_c, &marks)
}

/// Marks the items that one of them leads to.
fn led_from(
    alloc: Global,
    definitions: &[Option<&Definition>],
    names: &Names,
    from: usize,
) -> Result<Vec<bool>, NoMemory>
    requires from { from < length definitions.now }
    requires within { LeadsWithin (length definitions.now) (first_in names.now) }
    ensures counted { IfOk result (λ marks. length marks.items ≡ length definitions.now) }
    ensures led { IfOk result (λ marks. AreNamesOf (map tree_at definitions.now) (first_in names.now)
        → AreLed (map tree_at definitions.now) from (is_marked marks.items)) }
{
    let mut reached = Reached::nothing(alloc, definitions.len())?;
    reached.add(from)?;
    let mut glossary = Glossary::new(alloc);
    for index in 0..definitions.len() {
        if index >= reached.order.len() {
            break;
        }
        let item = reached.order[index];
        if let Some(definition) = definitions[item] {
            glossary.read(alloc, definition)?;
            reached.add_used(names, &glossary.mentioned)?;
        }
    }
    Ok(reached.marks)
}

impl Reached {
    /// Nothing, of so many items.
    fn nothing(alloc: Global, count: usize) -> Result<Reached, NoMemory>
        ensures reached { IfOk result (AreReached count) }
        ensures nothing { IfOk result (λ r. r.order.items ≡ []) }
    {
        Ok(Reached {
            marks: Vec::from_elem(alloc, false, count)?,
            order: Vec::new(alloc),
        })
    }

    /// Reaches an item, if it was not before.
    fn add(&mut self, item: usize) -> Result<(), NoMemory>
        requires { item < length self.now.marks.items }
        ensures counted { length self.new.marks.items ≡ length self.old.marks.items }
        ensures on { OnOk result ((count : ℕ) → AreReached count self.old
            → GoesOnTo (item ∷ []) count self.old self.new) }
    {
        if !self.marks[item] {
            self.order.push(item)?;
            self.marks[item] = true;
        }
        Ok(())
    }

    /// Reaches the items that declare first what these mentions use.
    fn add_used(&mut self, names: &Names, mentions: &[Mention]) -> Result<(), NoMemory>
        requires { LeadsWithin (length self.now.marks.items) (first_in names.now) }
        ensures { OnOk result ((count : ℕ) → AreReached count self.old → GoesOnTo
            (declaring_all (first_in names.now) (map view_mention mentions.now))
            count self.old self.new) }
    {
        for mention in mentions {
            if let Some(declarer) = names.first(mention.name) {
                self.add(declarer.item)?;
            }
        }
        Ok(())
    }
}

/// The item and the word of the first name of C, in no table, that a marked item uses.
fn first_marked(
    alloc: Global,
    definitions: &[Option<&Definition>],
    names: &Names,
    known: &KnownDefinitions,
    from_c: FromC,
    marks: &[bool],
) -> Result<Option<(usize, usize)>, NoMemory>
    requires { length marks.now ≡ length definitions.now }
    ensures { IfOk result (λ found. AreNamesOf (map tree_at definitions.now) (first_in names.now)
        → found ≡ option_map occurrence_place (first_led (is_marked marks.now)
        (foreign_uses from_c (known_names known.now) (map tree_at definitions.now)))) }
{
    let mut glossary = Glossary::new(alloc);
    for item in 0..definitions.len() {
        if !marks[item] {
            continue;
        }
        if let Some(definition) = definitions[item] {
            glossary.read(alloc, definition)?;
            if let Some(word) = foreign_word(names, known, from_c, &glossary.mentioned) {
                return Ok(Some((item, word)));
            }
        }
    }
    Ok(None)
}

/// The word of the first of these mentions that is one of a name of C in no table.
fn foreign_word(
    names: &Names,
    known: &KnownDefinitions,
    from_c: FromC,
    mentions: &[Mention],
) -> Option<usize>
    ensures { result ≡ foreign_word from_c (known_names known.now) (first_in names.now)
        (map view_mention mentions.now) }
{
    for mention in mentions {
        if is_lacking(known, names, mention.name) && !is_type(from_c, mention.name) {
            return Some(mention.word);
        }
    }
    None
}
