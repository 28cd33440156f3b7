//! Room in a table of uses.
ghost use Rattle.std.specs.Prelude.{Some, OnOk};
ghost use Rattle.x_uses.specs.Occurrences.{HasRoom};
ghost use Rattle.x_uses.specs.Slots.{slot_at, HasSameLists, RoomFor, KeepsRooms};

use super::making::insert_slot;
use super::slot::Slot;
use super::table::Table;
use std::alloc::Global;
use x_text::NoMemory;

/// Makes room for what another table has of the name.
fn make_room_at(alloc: Global, table: &mut Table, name: &[u8], fresh: &Slot) -> Result<(), NoMemory>
    ensures same { HasSameLists table.old.entries table.new.entries }
    ensures room { OnOk result (HasRoom (slot_at table.new.entries name.now) fresh.now) }
    ensures rooms { KeepsRooms table.old.entries table.new.entries }
{
    if let Some(slot) = table.get_mut(name) {
        return slot.make_room(fresh);
    }
    let mut slot = Slot::new(alloc);
    slot.make_room(fresh)?;
    insert_slot(alloc, table, name, slot)
}

/// Makes room for the names of another table.
pub fn make_room_in(alloc: Global, table: &mut Table, fresh: &Table) -> Result<(), NoMemory>
    ensures same { HasSameLists table.old.entries table.new.entries }
    ensures room { OnOk result (RoomFor table.new.entries fresh.now.entries) }
{
    for (name, slot) in fresh {
        make_room_at(alloc, table, name, slot)?;
    }
    Ok(())
}
