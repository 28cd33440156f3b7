//! The table of the names of a text: who declares each, and who sees it. It follows the edits of the text.
ghost use Rattle.std.specs.Prelude.{◌≡◌, ◌<◌, ◌≤◌, ◌+◌, ◌^◌, length, take, drop, map, IfOk, OnOk};
ghost use Rattle.std.specs.List.{splice};
ghost use Rattle.x_trees.specs.View.{tree_at};
ghost use Rattle.x_names.specs.Declarers.{AreShort, first_declarer};
ghost use Rattle.x_uses.specs.Occurrences.{Definitions, IsUsesOf, IsSameTable, HasRoomFor, users_in};

mod making;
mod places;
mod replacing;
mod room;
mod slot;
mod table;

use making::table_of;
use replacing::replace_in;
use room::make_room_in;
use std::alloc::Global;
use std::marker::Model;
use table::{Table, first_after_in, first_in, users_in};
use x_hash::HashKey;
use x_names::{Declarer, is_beforehand};
use x_text::NoMemory;
use x_trees::Definition;

/// The items that an edit takes out, from one on, and how many it puts in there.
#[derive(Clone, Copy, Debug)]
pub struct ItemSplice {
    /// The first of the items that are taken out, counted from 0.
    pub at: usize,
    /// How many are taken out.
    pub removed: usize,
    /// How many are put in.
    pub added: usize,
}

/// The table of the names of a text: the items that declare each, and those that declare or mention it. It is
/// seen as the list of the names with their slots.
pub struct Uses {
    table: Table,
}

// By hand, so that who lets it go calls this, and need not prove anew how its parts are let go.
impl Drop for Uses {
    fn drop(self) {
        let Uses { table: _ } = self;
    }
}

impl Model for Uses {
    ghost use Rattle.std.specs.Prelude.{map};
    ghost use Rattle.x_uses.specs.Occurrences.{UseTable};

    ghost Value = { UseTable };

    ghost view = { λ uses. map (λ e. (e.0.items, e.1)) uses.table.entries };
}

impl Uses {
    /// The table of the items' definitions. An item without one declares and sees nothing. Whoever chooses
    /// their names, and those of later edits, must not know the key, by which the table hashes.
    ///
    /// # Errors
    ///
    /// [`NoMemory`] where the table could not grow, or for an item or a word of an item from number 2^32 on.
    pub fn of(
        alloc: Global,
        hash_key: HashKey,
        definitions: &[Option<&Definition>],
    ) -> Result<Uses, NoMemory>
        ensures { IfOk result (λ uses. AreShort (map tree_at definitions.now)
            → IsUsesOf (map tree_at definitions.now) uses) }
    {
        Ok(Uses {
            table: table_of(alloc, hash_key, definitions)?,
        })
    }

    /// What the table hashes by.
    pub fn hash_key(&self) -> HashKey {
        *self.table.hasher()
    }

    /// The first declarer of the name. One that was declared beforehand, `TRUE` or `FALSE`, has none.
    pub fn first(&self, name: &[u8]) -> Option<Declarer>
        ensures { (old : Definitions) → IsUsesOf old self.now → result ≡ first_declarer old name.now }
    {
        if is_beforehand(name) {
            None
        } else {
            first_in(&self.table, name)
        }
    }

    /// As [`Uses::first`], once an edit puts the items of `fresh` in at the place.
    pub fn first_after(&self, fresh: &Uses, place: ItemSplice, name: &[u8]) -> Option<Declarer>
        ensures { (old put : Definitions) → IsUsesOf old self.now → IsUsesOf put fresh.now
            → place.at + place.removed ≤ length old → place.added ≡ length put
            → length old + place.added < 2 ^ 32
            → result ≡ first_declarer (splice old place.at (place.at + place.removed) put) name.now }
    {
        if is_beforehand(name) {
            None
        } else {
            first_after_in(&self.table, &fresh.table, place, name)
        }
    }

    /// The items that declare or mention the name, in order.
    pub fn users(&self, name: &[u8]) -> &[u32]
        ensures { result.now ≡ users_in self.now name.now }
    {
        users_in(&self.table, name)
    }

    /// Makes room for the names of `fresh`, so that [`Uses::replace`] takes no memory. No name gets another
    /// declarer or user.
    ///
    /// # Errors
    ///
    /// [`NoMemory`] where the table could not grow.
    pub fn make_room(&mut self, alloc: Global, fresh: &Uses) -> Result<(), NoMemory>
        ensures same { IsSameTable self.old self.new }
        ensures room { OnOk result (HasRoomFor self.new fresh.now) }
    {
        make_room_in(alloc, &mut self.table, &fresh.table)
    }

    /// Follows an edit that takes out the items at the place, with the uses `gone`, and puts in those of
    /// `fresh`. It takes no memory.
    pub fn replace(&mut self, place: ItemSplice, gone: &Uses, fresh: &Uses)
        requires room { HasRoomFor self.old fresh.now }
        ensures { (old put : Definitions) → IsUsesOf old self.old
            → IsUsesOf (take place.removed (drop place.at old)) gone.now → IsUsesOf put fresh.now
            → place.at + place.removed ≤ length old → place.added ≡ length put
            → length old + place.added < 2 ^ 32
            → IsUsesOf (splice old place.at (place.at + place.removed) put) self.new }
    {
        replace_in(&mut self.table, place, &gone.table, &fresh.table);
    }
}
