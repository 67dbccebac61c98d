// How a store begins. It knows nothing of what is put into it later.
ghost use Rattle.std.specs.Prelude.{◌≡◌, ◌≤◌, ◌&&◌, replicate, is_ok, vec_len, MatchResult, nat_le};
ghost use Rattle.store.specs.Held.{number_of, Opened};
ghost use Rattle.store.specs.Slots.{bare};

use crate::refusals::ShortTable;
use crate::slots::{DataSlot, Slot};
use crate::store::Store;
use awl::statements::Statement;

impl Store {
    // A store that holds nothing, over tables of at least 8,160 statements and 4,096 words; shorter ones are handed back.
    // Entries past these are never touched.
    pub fn open(
        number: u32,
        statements: Vec<Statement>,
        words: Vec<u16>,
    ) -> Result<Store, ShortTable>
        ensures test { is_ok result ≡ (nat_le 8160 (vec_len statements) && nat_le 4096 (vec_len words)) }
        ensures value { MatchResult result (λ s. Opened number statements words s) (λ e. (e.statements ≡ statements) × (e.words ≡ words)) }
    {
        if statements.len() < 8160 || words.len() < 4096 {
            return Err(ShortTable { statements, words });
        }
        Ok(Store::empty(number, statements, words))
    }

    // The number that the store was opened with.
    pub fn number(&self) -> u32
        ensures value { result ≡ number_of self.now }
    {
        self.number
    }

    // A store that holds nothing, over tables that are long enough.
    fn empty(number: u32, statements: Vec<Statement>, words: Vec<u16>) -> Store
        requires statement_room { 8160 ≤ vec_len statements }
        requires word_room { 4096 ≤ vec_len words }
        ensures value { Opened number statements words result }
        ensures unlaid { result.data_slots ≡ replicate 16 bare }
    {
        let free = Slot {
            name: None,
            size: 0,
        };
        let blank = DataSlot { number: 0, size: 0 };
        Store {
            number,
            statements,
            words,
            slots: [free; 32],
            data_slots: [blank; 16],
            laid: 0,
        }
    }
}
