// Taking a block out of a store. It knows nothing of texts.
ghost use Rattle.std.specs.Prelude.{◌≡◌, ◌-◌, Some, None, OnErr};
ghost use Rattle.store.specs.Calls.{erase_answer, blocks_erased, count_erased, SameData};
ghost use Rattle.store.specs.Held.{slot_of, blocks, block_count, with_block};

use crate::slots::Slot;
use crate::store::Store;
use awl::names::BlockName;
use awl::refusals::Refusal;

impl Store {
    // Erases the block of a name; refused where none is held.
    pub fn erase(&mut self, name: BlockName) -> Result<(), Refusal>
        ensures value { result ≡ erase_answer (blocks self.old) name }
        ensures after { blocks self.new ≡ blocks_erased (blocks self.old) name }
        ensures count { block_count self.new ≡ count_erased (blocks self.old) (block_count self.old) name }
        ensures same { SameData self.old self.new }
        ensures refused { OnErr result (self.new ≡ self.old) }
    {
        let Some(slot) = self.find(name) else {
            return Err(Refusal::NotHeld);
        };
        self.vacate(slot, name);
        Ok(())
    }

    // The slot of a name, from now on without a block.
    fn vacate(&mut self, slot: u8, name: BlockName)
        requires { slot_of self.old name ≡ Some slot }
        ensures after { blocks self.new ≡ with_block (blocks self.old) name None }
        ensures count { block_count self.new ≡ block_count self.old - 1 }
        ensures same { SameData self.old self.new }
    {
        self.slots[slot as usize] = Slot {
            name: None,
            size: 0,
        };
    }
}
