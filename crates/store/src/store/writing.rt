// Putting a block into a store: a text is read whole before anything is touched. It knows nothing of how a text is read.
ghost use Rattle.std.specs.Prelude.{◌≡◌, Some, OnErr};
ghost use Rattle.reader.specs.Laws.{Lawful};
ghost use Rattle.reader.specs.Listed.{listed};
ghost use Rattle.reader.specs.Reading.{reading};
ghost use Rattle.store.specs.Calls.{statements_of, write_answer, blocks_written, count_with, count_written, SameData};
ghost use Rattle.store.specs.Held.{blocks, block_count, with_block};
ghost use Rattle.store.specs.Slots.{free_from, place_in};

use crate::refusals::WriteRefusal;
use crate::slots::Slot;
use crate::store::Store;
use crate::tables::put_block;
use awl::names::BlockName;
use reader::blocks::read;
use reader::listings::Block;

impl Store {
    // Puts the block that the text spells under the name, in place of one that is held there. Refused for the text's
    // first fault, or where 32 blocks of other names are held.
    pub fn write(&mut self, name: BlockName, text: &[u8]) -> Result<(), WriteRefusal>
        ensures value { result ≡ write_answer (blocks self.old) (block_count self.old) name (reading text.now) }
        ensures after { blocks self.new ≡ blocks_written (blocks self.old) (block_count self.old) name (reading text.now) }
        ensures count { block_count self.new ≡ count_written (blocks self.old) (block_count self.old) name (reading text.now) }
        ensures same { SameData self.old self.new }
        ensures refused { OnErr result (self.new ≡ self.old) }
    {
        let block = read(text)?;
        let Some(slot) = self.place_for(name) else {
            return Err(WriteRefusal::NoFreePlace);
        };
        self.seat(slot, name, &block);
        Ok(())
    }

    // The first slot that no block has, or none.
    fn free_slot(&self) -> Option<u8>
        ensures value { result ≡ free_from 0 self.now.slots }
    {
        self.slots
            .iter()
            .position(|slot| slot.name.is_none())
            .map(|slot| slot as u8)
    }

    // Where a block of the name goes: to its own slot, or to the first that no block has.
    fn place_for(&self, name: BlockName) -> Option<u8>
        ensures value { result ≡ place_in self.now.slots name }
    {
        self.find(name).or_else(|| self.free_slot())
    }

    // The block into its slot.
    fn seat(&mut self, slot: u8, name: BlockName, block: &Block)
        requires place { place_in self.old.slots name ≡ Some slot }
        requires lawful { Lawful (listed block.now.lines block.now.count) }
        ensures after { blocks self.new ≡ with_block (blocks self.old) name (Some (statements_of (listed block.now.lines block.now.count))) }
        ensures count { block_count self.new ≡ count_with (blocks self.old) (block_count self.old) name }
        ensures same { SameData self.old self.new }
    {
        put_block(&mut self.statements, slot as usize, block);
        self.slots[slot as usize] = Slot {
            name: Some(name),
            size: block.count as u8,
        };
    }
}
