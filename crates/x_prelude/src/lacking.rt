//! The names that a text uses and nobody declares.

ghost use Rattle.std.specs.Prelude.{◌≡◌, ◌∷◌, ◌++◌, [], ℕ, List, map, IfOk, OnOk};
ghost use Rattle.x_trees.specs.Collected.{view_mention};
ghost use Rattle.x_names.specs.DeclarerTable.{first_in};
ghost use Rattle.x_compile.specs.Compile.{definitions_of};
ghost use Rattle.x_compile.specs.Known.{known_names};
ghost use Rattle.x_session.specs.Session.{Compiles};
ghost use Rattle.x_prelude.specs.Lacking.{Occurrence, are_lacking, first_tag, is_lacking, lacking};
ghost use Rattle.x_prelude.specs.LackingTable.{HasFirsts, HasNames, HasTags, occurrence};

use indexmap::IndexMap;
use std::alloc::Global;
use x_compile::KnownDefinitions;
use x_hash::{HashKey, KeyedTable};
use x_names::{Names, is_beforehand};
use x_session::{Session, names};
use x_text::NoMemory;
use x_trees::{Glossary, Mention, Tag};

/// Where a text uses a name first that it lacks.
#[derive(Clone, Copy, Debug)]
pub(crate) struct FirstUse<'s> {
    /// The item, counted from 0.
    pub item: usize,
    pub mention: Mention<'s>,
}

/// The names that a text lacks.
#[derive(Drop)]
pub(crate) struct LackingNames<'s> {
    /// Each with its first use, in the order of these.
    pub firsts: KeyedTable<&'s [u8], FirstUse<'s>>,
    /// The first keyword in front of each that has one.
    tags: KeyedTable<&'s [u8], Tag>,
}

/// The names that a text lacks, behind what is known. It takes time in proportion to the text, and memory for
/// these names, for those that it declares, and for what stands in one definition.
///
/// # Errors
///
/// [`NoMemory`] where a table or a list could not grow.
pub(crate) fn lacking<'s>(
    alloc: Global,
    session: &'s Session,
    known: &KnownDefinitions,
) -> Result<LackingNames<'s>, NoMemory>
    ensures { IfOk result (λ lacks. Compiles session.now.known session.now.text
        (λ items. HasNames lacks (lacking (known_names known.now) (definitions_of items)))) }
{
    // So many tokens fit, and no definition has more words.
    let _ = session.token_count();
    let names = names(alloc, session)?;
    let mut lacks = LackingNames::new(alloc, session.hash_key());
    let mut glossary = Glossary::new(alloc);
    for item in 0..session.item_count() {
        if let Some(definition) = session.definition(item) {
            glossary.read(alloc, definition)?;
            lacks.add(known, &names, item, &glossary.mentioned)?;
        }
    }
    Ok(lacks)
}

impl<'s> LackingNames<'s> {
    fn new(alloc: Global, hash_key: HashKey) -> LackingNames<'s>
        ensures { HasNames result [] }
    {
        LackingNames {
            firsts: IndexMap::with_hasher(alloc, hash_key),
            tags: IndexMap::with_hasher(alloc, hash_key),
        }
    }

    /// Takes in the lacking names among the mentions of an item, behind those of the mentions before.
    fn add(
        &mut self,
        known: &KnownDefinitions,
        names: &Names,
        item: usize,
        mentions: &[Mention<'s>],
    ) -> Result<(), NoMemory>
        ensures { OnOk result ((before : List Occurrence)
            → let lack = are_lacking (known_names known.now) (first_in names.now) in
            HasNames self.old (lack before)
            → HasNames self.new (lack (before ++ map (occurrence item) mentions.now))) }
    {
        for mention in mentions {
            if is_lacking(known, names, mention.name) {
                self.note(item, mention)?;
            }
        }
        Ok(())
    }

    /// Takes in the name of a mention, behind those of other mentions.
    fn note(&mut self, item: usize, mention: &Mention<'s>) -> Result<(), NoMemory>
        ensures { OnOk result ((before : List Occurrence) → HasNames self.old before
            → HasNames self.new (before ++ occurrence item mention.now ∷ [])) }
    {
        note_first(&mut self.firsts, item, mention)?;
        note_tag(&mut self.tags, item, mention)
    }

    /// The first keyword in front of a name.
    pub(crate) fn tag(&self, name: &[u8]) -> Option<Tag>
        ensures { (all : List Occurrence) → HasNames self.now all → result ≡ first_tag name.now all }
    {
        self.tags.get(name).copied()
    }
}

/// Takes in the name of a mention, if none of those before is one of it.
fn note_first<'s>(
    firsts: &mut KeyedTable<&'s [u8], FirstUse<'s>>,
    item: usize,
    mention: &Mention<'s>,
) -> Result<(), NoMemory>
    ensures { OnOk result ((before : List Occurrence) → HasFirsts firsts.old.entries before
        → HasFirsts firsts.new.entries (before ++ occurrence item mention.now ∷ [])) }
{
    if !firsts.contains_key(mention.name) {
        let first = FirstUse {
            item,
            mention: *mention,
        };
        firsts.insert(mention.name, first)?;
    }
    Ok(())
}

/// Takes in the keyword of a mention, if none before has one with its name.
fn note_tag<'s>(
    tags: &mut KeyedTable<&'s [u8], Tag>,
    item: usize,
    mention: &Mention<'s>,
) -> Result<(), NoMemory>
    ensures { OnOk result ((before : List Occurrence) → HasTags tags.old.entries before
        → HasTags tags.new.entries (before ++ occurrence item mention.now ∷ [])) }
{
    let Some(tag) = mention.tag else {
        return Ok(());
    };
    if !tags.contains_key(mention.name) {
        tags.insert(mention.name, tag)?;
    }
    Ok(())
}

/// Whether a name is declared neither beforehand, nor before the text, nor by an item.
pub(crate) fn is_lacking(known: &KnownDefinitions, names: &Names, name: &[u8]) -> bool
    ensures { result ≡ is_lacking (known_names known.now) (first_in names.now) name.now }
{
    !(is_beforehand(name) || known.view(name).is_some() || names.first(name).is_some())
}
