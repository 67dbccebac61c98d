// The store, and what always holds of its tables. It knows nothing of how they change.
ghost use Rattle.std.specs.Prelude.{◌≡◌, ◌≤◌, length, vec_len};
ghost use Rattle.store.specs.Slots.{Single, Emptied, Small, AllReadable, Sized};

use crate::slots::{DataSlot, Slot};
use awl::statements::Statement;

pub mod erasing;
pub mod laying;
pub mod open;
pub mod questions;
pub mod writing;

// Slot i of 32 has the statements from 255 * i on, data slot i of 16 the words from 256 * i on. Data blocks are laid one
// slot after another, and stay, in a table of fixed size: so their count is the next free slot, which no search has to find.
#[derive(Drop)]
pub struct Store {
    number: u32,
    statements: Vec<Statement>,
    words: Vec<u16>,
    slots: [Slot; 32],
    data_slots: [DataSlot; 16],
    laid: usize,
    ghost statement_room: { 8160 ≤ vec_len statements },
    ghost word_room: { 4096 ≤ vec_len words },
    ghost slot_count: { length slots ≡ 32 },
    ghost data_slot_count: { length data_slots ≡ 16 },
    ghost few: { laid ≤ 16 },
    ghost single: { Single slots },
    ghost emptied: { Emptied slots },
    ghost small: { Small slots },
    ghost readable: { AllReadable slots statements.items },
    ghost sized: { Sized data_slots laid },
}
