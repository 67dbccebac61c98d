// What can be asked of the blocks that a store holds. It changes nothing.
ghost use Rattle.std.specs.Prelude.{◌≡◌, ◌<◌, map, is_some, IfSome, Some};
ghost use Rattle.std.specs.Option.{option_map};
ghost use Rattle.parser.specs.Statements.{written};
ghost use Rattle.store.specs.Held.{slot_of, name_at, text_at, blocks, block_count, Readable};

use crate::slots::{count_named, first_named};
use crate::store::Store;
use crate::tables::part;
use awl::names::BlockName;
use awl::statements::Statement;

impl Store {
    // The slot of the block of a name, or none.
    #[tactic(auto, using(crate::proofs::Holding::block_found))]
    pub fn find(&self, name: BlockName) -> Option<u8>
        ensures value { result ≡ slot_of self.now name }
        ensures bound { IfSome result (λ i. i < 32) }
        ensures held { blocks self.now name ≡ option_map (text_at self.now) result }
    {
        first_named(&self.slots, name)
    }

    // The name of the block in a slot; none from 32 on.
    pub fn name_at(&self, slot: u8) -> Option<BlockName>
        ensures value { result ≡ name_at self.now slot }
    {
        self.slots.get(slot as usize)?.name
    }

    // The statements of the block in a slot; none where no block has it, and from 32 on.
    #[tactic(auto, using(crate::proofs::Holding::text_part, crate::proofs::Holding::part_readable, crate::proofs::Holding::text_past))]
    pub fn statements_at(&self, slot: u8) -> &[Statement]
        ensures value { map written result.now ≡ text_at self.now slot }
        ensures readable { (n : BlockName) → name_at self.now slot ≡ Some n → Readable (map written result.now) }
    {
        let slot = slot as usize;
        let Some(entry) = self.slots.get(slot) else {
            return &[];
        };
        part::<Statement, 255>(&self.statements, slot, entry.size as usize)
    }

    // The statements of the block of a name, or none.
    pub fn block(&self, name: BlockName) -> Option<&[Statement]>
        ensures value { option_map (λ block. map written block.now) result ≡ blocks self.now name }
    {
        self.find(name).map(|slot| self.statements_at(slot))
    }

    // Whether a block of the name is held.
    pub fn holds(&self, name: BlockName) -> bool
        ensures value { result ≡ is_some (blocks self.now name) }
    {
        self.find(name).is_some()
    }

    // How many blocks are held.
    #[tactic(auto, unfolding(crate::specs::Held::block_count))]
    pub fn block_count(&self) -> usize
        ensures value { result ≡ block_count self.now }
    {
        count_named(&self.slots)
    }
}
