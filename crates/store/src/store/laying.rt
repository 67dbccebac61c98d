// Data blocks: laying one, and what can be asked of those that are laid. It knows nothing of statements.
ghost use Rattle.std.specs.Prelude.{◌≡◌, ◌+◌, ◌<◌, ◌≤◌, false, replicate, is_some, IfSome, Some, OnErr};
ghost use Rattle.std.specs.Option.{option_map};
ghost use Rattle.store.specs.Calls.{lay_answer, data_laid, count_laid, SameBlocks};
ghost use Rattle.store.specs.Held.{data_blocks, data_count, with_data, word_of};
ghost use Rattle.store.specs.Slots.{data_slot_in, words_in};

use crate::slots::DataSlot;
use crate::store::Store;
use crate::tables::{part, put_zeros};
use awl::refusals::Refusal;

impl Store {
    // Lays a data block of so many words, all 0, under the number. Refused where it is not 1 to 256 words, where the
    // number is laid already, and where 16 data blocks are laid.
    pub fn lay(&mut self, number: u8, size: u16) -> Result<(), Refusal>
        ensures value { result ≡ lay_answer (data_blocks self.old) (data_count self.old) number size }
        ensures after { data_blocks self.new ≡ data_laid (data_blocks self.old) (data_count self.old) number size }
        ensures count { data_count self.new ≡ count_laid (data_blocks self.old) (data_count self.old) number size }
        ensures same { SameBlocks self.old self.new }
        ensures refused { OnErr result (self.new ≡ self.old) }
    {
        if size < 1 || size > 256 {
            return Err(Refusal::DataLength);
        }
        if self.lays(number) {
            return Err(Refusal::LaidAlready);
        }
        if self.laid >= 16 {
            return Err(Refusal::NoFreePlace);
        }
        self.add_data(number, size);
        Ok(())
    }

    // Whether a data block of the number is laid.
    pub fn lays(&self, number: u8) -> bool
        ensures value { result ≡ is_some (data_blocks self.now number) }
    {
        self.find_data(number).is_some()
    }

    // The words of the data block of a number, or none.
    pub fn words(&self, number: u8) -> Option<&[u16]>
        ensures value { option_map (λ words. words.now) result ≡ data_blocks self.now number }
    {
        let slot = self.find_data(number)?;
        Some(self.words_at(slot))
    }

    // A word of the data block of a number, from 0; none where the block is not laid or lacks the word.
    pub fn word(&self, number: u8, n: u8) -> Option<u16>
        ensures value { result ≡ word_of (data_blocks self.now number) n }
    {
        self.words(number)?.get(n as usize).copied()
    }

    // The data slot of a number, or none.
    fn find_data(&self, number: u8) -> Option<usize>
        ensures value { result ≡ data_slot_in self.now.data_slots self.now.laid number }
        ensures bound { IfSome result (λ i. i < self.now.laid) }
        ensures held { data_blocks self.now number ≡ option_map (words_in self.now.data_slots self.now.words.items) result }
    {
        self.data_slots[..self.laid]
            .iter()
            .position(|slot| slot.number == number)
    }

    // The words in a data slot.
    fn words_at(&self, slot: usize) -> &[u16]
        requires { slot < self.now.laid }
        ensures value { result.now ≡ words_in self.now.data_slots self.now.words.items slot }
    {
        let size = self.data_slots[slot].size as usize;
        part::<u16, 256>(&self.words, slot, size)
    }

    // One more data block, in the next slot.
    fn add_data(&mut self, number: u8, size: u16)
        requires room { self.old.laid < 16 }
        requires some { 1 ≤ size }
        requires few { size ≤ 256 }
        requires fresh { is_some (data_blocks self.old number) ≡ false }
        ensures after { data_blocks self.new ≡ with_data (data_blocks self.old) number (Some (replicate size 0)) }
        ensures count { data_count self.new ≡ data_count self.old + 1 }
        ensures same { SameBlocks self.old self.new }
    {
        let slot = self.laid;
        put_zeros(&mut self.words, slot, size as usize);
        self.data_slots[slot] = DataSlot { number, size };
        self.laid = slot + 1;
    }
}
