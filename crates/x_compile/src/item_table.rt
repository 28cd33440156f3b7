//! The items of a text.

ghost use Rattle.std.specs.Prelude.{◌≡◌, ◌≤◌, ◌+◌, ◌++◌, length, map, IfOk, OnOk, None};
ghost use Rattle.std.specs.Prelude.{option_and_then, slice_get};
ghost use Rattle.x_text.specs.declared.text.source.TheConstants.{MAX_TEXT};
ghost use Rattle.x_cutting.specs.ItemList.{AreOfText, counts};
ghost use Rattle.x_trees.specs.View.{tree_at};
ghost use Rattle.x_compile.specs.Definitions.{numbered};
ghost use Rattle.x_compile.specs.KeptView.{entry_definitions, entry_results, kept_part};
ghost use Rattle.x_rules.specs.KeptViews.{lent_outcome};
ghost use Rattle.x_rules.specs.Results.{meaning_at, result_at};
ghost use Rattle.x_rules.specs.RustViews.{view_meaning};

use crate::content::Content;
use std::alloc::Global;
use x_gen::{PieceList, Pieces};
use x_hash::HashKey;
use x_item::{Definition, ItemEntry, Items};
use x_names::Declarer;
use x_rules::{Checked, Meaning};
use x_text::{GapIter, NoMemory};
use x_uses::Uses;

/// The items of a text, in order, each with what is kept with it.
pub struct ItemTable {
    pub entries: Items<Content>,
    /// How many faults they have.
    pub faults: usize,
    /// Which of them declare and use each name: made at the first edit, so that who makes none pays nothing.
    pub uses: Option<Uses>,
    /// What tables of their names and numbers hash by.
    pub hash_key: HashKey,
}

// By hand, so that who lets it go calls this, and need not prove anew how its parts are let go.
impl Drop for ItemTable {
    fn drop(self) {
        let ItemTable {
            entries: _,
            faults: _,
            uses: _,
            hash_key: _,
        } = self;
    }
}

impl ItemTable {
    /// These items, which have so many faults, and what tables of their names and numbers hash by.
    pub fn of(
        alloc: Global,
        hash_key: HashKey,
        entries: Vec<ItemEntry<Content>>,
        faults: usize,
    ) -> Result<ItemTable, NoMemory>
        requires { AreOfText (counts entries.items) }
        ensures list { IfOk result (λ table. table.entries.list ≡ entries.items) }
        ensures seat { IfOk result (λ table. table.entries.seat ≡ length entries.items) }
        ensures faults { IfOk result (λ table. table.faults ≡ faults) }
        ensures uses { IfOk result (λ table. table.uses ≡ None) }
    {
        let entries = Items::from_entries(alloc, entries)?;
        Ok(ItemTable {
            entries,
            faults,
            uses: None,
            hash_key,
        })
    }

    /// How many items there are.
    pub fn len(&self) -> usize
        ensures { result ≡ length self.now.entries.list }
    {
        self.entries.len()
    }

    /// Goes over the items.
    pub fn iter(&self) -> GapIter<'_, ItemEntry<Content>>
        ensures list { result ≡ self.now.entries.list }
        ensures small { length result ≤ MAX_TEXT + 1 }
    {
        self.entries.iter()
    }

    /// The definition of the item at an index, if it has one.
    pub fn definition(&self, index: usize) -> Option<&Definition>
        ensures { tree_at result
            ≡ option_and_then (λ d. d) (slice_get (entry_definitions self.now.entries.list) index) }
    {
        self.entries.get(index)?.kept.definition()
    }

    /// What checking the item at an index found, if it has a definition.
    pub fn checked(&self, index: usize) -> Option<&Checked>
        ensures { lent_outcome result ≡ result_at (entry_results self.now.entries.list) index }
    {
        self.entries.get(index)?.kept.checked()
    }

    /// What a name means whose first declarer this is: [`Meaning::Bad`] where that item has a fault.
    pub fn meaning(&self, first: &Declarer) -> Meaning<'_>
        ensures { view_meaning result
            ≡ meaning_at (result_at (entry_results self.now.entries.list)) first.now }
    {
        match self.checked(first.item) {
            Some(checked) => checked.meaning(first.place),
            None => Meaning::Bad,
        }
    }

    /// The definition of each item.
    pub fn definitions(&self, alloc: Global) -> Result<Vec<Option<&Definition>>, NoMemory>
        ensures { IfOk result
            (λ definitions. map tree_at definitions.items ≡ entry_definitions self.now.entries.list) }
    {
        let mut definitions = Vec::with_capacity(alloc, self.len())?;
        self.add_definitions(&mut definitions)?;
        Ok(definitions)
    }

    /// Adds the definition of each item.
    pub fn add_definitions<'t>(
        &'t self,
        definitions: &mut Vec<Option<&'t Definition>>,
    ) -> Result<(), NoMemory>
        ensures { OnOk result (map tree_at definitions.new.items
            ≡ map tree_at definitions.old.items ++ entry_definitions self.now.entries.list) }
    {
        for entry in self.iter() {
            definitions.push(entry.kept.definition())?;
        }
        Ok(())
    }

    /// How many items have a definition.
    pub fn definition_count(&self) -> usize
        ensures { result ≡ length (numbered 0 (entry_definitions self.now.entries.list)) }
    {
        let mut count = 0;
        for entry in self.iter() {
            if entry.kept.definition().is_some() {
                count += 1;
            }
        }
        count
    }
}

impl PieceList for ItemTable {
    ghost use Rattle.std.specs.Prelude.{map};
    ghost use Rattle.x_compile.specs.KeptView.{kept_part};

    ghost parts = { λ table. map (λ e. kept_part e.kept) table.entries.list };

    fn count(&self) -> usize {
        self.len()
    }

    fn lines(&self, index: usize) -> &[u8] {
        match self.entries.get(index) {
            Some(entry) => entry.kept.lines(),
            None => &[],
        }
    }

    fn pieces(&self, index: usize) -> Option<&Pieces> {
        self.entries.get(index)?.kept.pieces()
    }
}
