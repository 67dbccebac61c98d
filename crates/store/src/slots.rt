// The slots that a store's tables are cut into. It knows nothing of what stands in the tables.
ghost use Rattle.std.specs.Prelude.{◌≡◌, ◌<◌, ◌≤◌, length, IfSome};
ghost use Rattle.store.specs.Slots.{is_named, slot_in, names_in};

use awl::names::BlockName;

// 255 entries of the statement table: the block that has them, if any, and how many it takes. A size and no slice, here and
// below: the tables are the store's, handed to it once for good, and a slot is a fixed part of them.
#[derive(Clone, Copy)]
pub struct Slot {
    pub name: Option<BlockName>,
    pub size: u8,
}

// 256 entries of the word table: the number of the data block that has them, and how many it takes.
#[derive(Clone, Copy)]
pub struct DataSlot {
    pub number: u8,
    pub size: u16,
}

impl Slot {
    // Whether the block of the name has the slot.
    pub fn is_named(self, name: BlockName) -> bool
        ensures value { result ≡ is_named self.name name }
    {
        self.name == Some(name)
    }
}

// The first slot of a name, or none.
pub(crate) fn first_named(slots: &[Slot], name: BlockName) -> Option<u8>
    requires { length slots.now ≤ 256 }
    ensures value { result ≡ slot_in slots.now name }
    ensures bound { IfSome result (λ i. i < length slots.now) }
{
    slots
        .iter()
        .position(|slot| slot.is_named(name))
        .map(|slot| slot as u8)
}

// How many of the slots have a block.
pub(crate) fn count_named(slots: &[Slot]) -> usize
    ensures value { result ≡ length (names_in slots.now) }
{
    slots.iter().filter(|slot| slot.name.is_some()).count()
}
