//! What the table of uses has of one name.
ghost use Rattle.std.specs.Prelude.{◌≡◌, true, [], Some, IfOk, OnOk};
ghost use Rattle.x_trees.specs.Collected.{view_name};
ghost use Rattle.x_names.specs.Declarers.{declarer_at};
ghost use Rattle.x_uses.specs.Occurrences.{declarer_of, HasRoom};
ghost use Rattle.x_uses.specs.Slots.{slot_stays, slot_renumbered, slot_filled, empty_slot, Widens};
ghost use Rattle.x_uses.specs.Slots.{declarer_item, put_declarer, user_item, noted};

use super::ItemSplice;
use super::places::{AtItem, note, put_in, renumber_all, take_out};
use smallvec::SmallVec;
use std::alloc::Global;
use x_names::Declarer;
use x_text::NoMemory;
use x_trees::{DeclaredName, NameKind};

/// A [`Declarer`] in half the memory.
#[derive(Clone, Copy)]
pub struct CompactDeclarer {
    pub(crate) item: u32,
    pub(crate) word: u32,
    pub(crate) place: u32,
    pub(crate) kind: NameKind,
    pub(crate) lifted: bool,
}

impl Default for CompactDeclarer {
    fn default() -> CompactDeclarer {
        CompactDeclarer {
            item: 0,
            word: 0,
            place: 0,
            kind: NameKind::Constant,
            lifted: false,
        }
    }
}

impl AtItem for CompactDeclarer {
    ghost item_of = { declarer_item };

    ghost put = { put_declarer };

    fn item(self) -> usize {
        self.item as usize
    }

    fn at_item(self, item: usize) -> CompactDeclarer {
        CompactDeclarer {
            item: u32::try_from(item).unwrap_or(u32::MAX),
            word: self.word,
            place: self.place,
            kind: self.kind,
            lifted: self.lifted,
        }
    }
}

impl CompactDeclarer {
    /// The declarer of a name that stands in this place among those that the item declares.
    pub fn of(item: u32, place: usize, name: &DeclaredName) -> Result<CompactDeclarer, NoMemory>
        ensures { IfOk result (λ declarer. declarer_of declarer
            ≡ declarer_at item place (view_name name.now)) }
    {
        let (Ok(word), Ok(place)) = (u32::try_from(name.word), u32::try_from(place)) else {
            return Err(NoMemory);
        };
        Ok(CompactDeclarer {
            item,
            word,
            place,
            kind: name.kind,
            lifted: name.lifted,
        })
    }

    /// The same as a [`Declarer`].
    pub fn declarer(self) -> Declarer
        ensures { result ≡ declarer_of self }
    {
        Declarer {
            item: self.item as usize,
            word: self.word as usize,
            place: self.place as usize,
            kind: self.kind,
            lifted: self.lifted,
        }
    }
}

/// The declarers and the users of a name, both in the order of their items.
#[derive(Drop)]
pub struct Slot {
    pub(crate) declarers: SmallVec<CompactDeclarer, 1>,
    pub(crate) users: SmallVec<u32, 4>,
}

impl Slot {
    /// A slot without declarers and users.
    pub fn new(alloc: Global) -> Slot
        ensures { result ≡ empty_slot }
    {
        Slot {
            declarers: SmallVec::new(alloc),
            users: SmallVec::new(alloc),
        }
    }

    /// Whether the name has no declarers and no users.
    pub fn is_empty(&self) -> bool
        ensures yes { result ≡ true → (self.now.declarers.items ≡ []) × (self.now.users.items ≡ []) }
        ensures no { self.now.declarers.items ≡ [] → self.now.users.items ≡ [] → result ≡ true }
    {
        self.declarers.is_empty() && self.users.is_empty()
    }

    /// Takes in a declarer, and its item as a user, but for a second of the same item.
    pub fn note_declarer(&mut self, declarer: CompactDeclarer) -> Result<(), NoMemory>
        ensures declarers { OnOk result (self.new.declarers.items
            ≡ noted declarer_item self.old.declarers.items declarer) }
        ensures users { OnOk result (self.new.users.items
            ≡ noted user_item self.old.users.items declarer.item) }
    {
        note(&mut self.declarers, declarer)?;
        note(&mut self.users, declarer.item)
    }

    /// Takes in a user, each once.
    pub fn note_user(&mut self, item: u32) -> Result<(), NoMemory>
        ensures declarers { self.new.declarers ≡ self.old.declarers }
        ensures users { OnOk result (self.new.users.items ≡ noted user_item self.old.users.items item) }
    {
        note(&mut self.users, item)
    }

    /// Takes out the items that the edit takes out.
    pub fn take_out(&mut self, place: ItemSplice)
        ensures { self.new ≡ slot_stays place self.old }
    {
        take_out(&mut self.declarers, place);
        take_out(&mut self.users, place);
    }

    /// Gives the items that stay their numbers after the edit.
    pub fn renumber(&mut self, place: ItemSplice)
        ensures { self.new ≡ slot_renumbered place self.old }
    {
        renumber_all(&mut self.declarers, place);
        renumber_all(&mut self.users, place);
    }

    /// Puts in those of another slot, whose items are counted from `at`. It takes no memory.
    pub fn put_in(&mut self, at: usize, fresh: &Slot)
        requires { HasRoom (Some self.old) fresh.now }
        ensures { self.new ≡ slot_filled at fresh.now self.old }
    {
        put_in(&mut self.declarers, at, &fresh.declarers);
        put_in(&mut self.users, at, &fresh.users);
    }

    /// Makes room for those of another slot.
    pub fn make_room(&mut self, fresh: &Slot) -> Result<(), NoMemory>
        ensures same { Widens self.old self.new }
        ensures room { OnOk result (HasRoom (Some self.new) fresh.now) }
    {
        self.declarers.reserve(fresh.declarers.len())?;
        self.users.reserve(fresh.users.len())?;
        Ok(())
    }
}
