//! The items of a text as those of which an edit makes some stale.

use x_compile::{ItemTable, KnownDefinitions};
use x_recheck::CheckedItems;
use x_rules::{Checked, View};
use x_trees::Definition;

/// The items of a text, with what checking them found, and what is known before the text.
#[derive(Drop)]
pub struct CheckedTable<'t> {
    pub known: &'t KnownDefinitions,
    pub items: &'t ItemTable,
}

impl<'t> CheckedItems for CheckedTable<'t> {
    ghost use Rattle.x_compile.specs.Known.{known_names};
    ghost use Rattle.x_compile.specs.KeptView.{entry_definitions, entry_results};

    ghost text = { λ table. record {
      known = known_names table.known.now;
      definitions = entry_definitions table.items.now.entries.list;
      outcomes = entry_results table.items.now.entries.list;
    } };

    fn known(&self, name: &[u8]) -> Option<View<'_>> {
        self.known.view(name)
    }

    fn definition(&self, item: usize) -> Option<&Definition> {
        self.items.definition(item)
    }

    fn checked(&self, item: usize) -> Option<&Checked> {
        self.items.entries.get(item)?.kept.checked()
    }
}
