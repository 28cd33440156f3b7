//! Definitions that are known before a text.

ghost use Rattle.std.specs.Prelude.{◌≡◌, IfOk, map, option_map};
ghost use Rattle.x_trees.specs.View.{tree_at};
ghost use Rattle.x_names.specs.Declarers.{AreShort};
ghost use Rattle.x_rules.specs.Results.{result_at};
ghost use Rattle.x_rules.specs.RustViews.{view_view};
ghost use Rattle.x_uses.specs.Occurrences.{IsUsesOf};
ghost use Rattle.x_compile.specs.Known.{known_definitions, known_names, names_known, nothing_known};
ghost use Rattle.x_compile.specs.KnownItems.{known_text};
ghost use Rattle.x_compile.specs.KeptView.{entry_definitions, entry_results};

use crate::item_table::ItemTable;
use std::alloc::Global;
use std::marker::Model;
use x_item::Definition;
use x_rules::View;
use x_text::NoMemory;
use x_uses::Uses;

/// Definitions that are known before a text, as those of a file that it includes. Nothing is generated of
/// them, and they come before all items of the text.
#[derive(Drop)]
pub struct KnownDefinitions {
    known: Option<KnownItems>,
}

/// The items of a known text, and the table of their names.
#[derive(Drop)]
pub(crate) struct KnownItems {
    items: ItemTable,
    names: Uses,
}

impl KnownItems {
    /// What each item of a text sees of a name that these declare.
    fn view(&self, name: &[u8]) -> Option<View<'_>>
        requires { IsUsesOf (entry_definitions self.now.items.entries.list) self.now.names }
        ensures { option_map view_view result
            ≡ names_known (entry_definitions self.now.items.entries.list)
            (result_at (entry_results self.now.items.entries.list)) name.now }
    {
        let first = self.names.first(name)?;
        Some(View::Earlier {
            kind: first.kind,
            lifted: first.lifted,
            meaning: self.items.meaning(&first),
        })
    }
}

impl Model for KnownDefinitions {
    ghost use Rattle.std.specs.Prelude.{IfSome};
    ghost use Rattle.std.specs.Coded.{codes};
    ghost use Rattle.std.specs.Option.{option_map_or};
    ghost use Rattle.x_trees.specs.contracts.trees.definition.Definition as definition;
    ghost use Rattle.x_uses.specs.Occurrences.{IsUsesOf};
    ghost use Rattle.x_compile.specs.KeptView.{entry_definitions};
    ghost use Rattle.x_compile.specs.Known.{KnownText, nothing_known};
    ghost use Rattle.x_compile.specs.KnownItems.{known_text};

    ghost Value = { KnownText };

    ghost coded = { Prim.hlevel (codes, definition.the_row.coded) };

    ghost view = { λ k. option_map_or (λ i. known_text i.items.entries.list) k.known nothing_known };

    ghost invariant = { λ k. IfSome k.known
        (λ i. IsUsesOf (entry_definitions i.items.entries.list) i.names) };
}

impl KnownDefinitions {
    /// Nothing is known.
    pub fn none() -> KnownDefinitions
        ensures { result ≡ nothing_known }
    {
        KnownDefinitions { known: None }
    }

    /// The definitions of these items.
    ///
    /// # Errors
    ///
    /// [`NoMemory`] where the table of their names could not be kept.
    pub fn of(alloc: Global, items: ItemTable) -> Result<KnownDefinitions, NoMemory>
        requires { AreShort (entry_definitions items.entries.list) }
        ensures { IfOk result (λ known. known ≡ known_text items.entries.list) }
    {
        let names = Uses::of(alloc, items.hash_key, &items.definitions(alloc)?)?;
        Ok(KnownDefinitions {
            known: Some(KnownItems { items, names }),
        })
    }

    /// What each item of a text sees of a name that is known before it.
    pub fn view(&self, name: &[u8]) -> Option<View<'_>>
        ensures { option_map view_view result ≡ known_names self.now name.now }
    {
        self.known.as_ref()?.view(name)
    }

    /// The definitions, an item each, if it has one.
    pub fn definitions(&self, alloc: Global) -> Result<Vec<Option<&Definition>>, NoMemory>
        ensures { IfOk result
            (λ definitions. map tree_at definitions.items ≡ known_definitions self.now) }
    {
        match &self.known {
            Some(known) => known.items.definitions(alloc),
            None => Ok(Vec::new(alloc)),
        }
    }
}
