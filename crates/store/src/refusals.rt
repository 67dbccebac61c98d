// What a store's refusals carry. It knows nothing of when a call is refused.
ghost use Rattle.std.specs.Prelude.{◌≡◌};
ghost use Rattle.store.specs.Refused.{write_refusal};
ghost use Rattle.store.specs.declared.refusals.WriteRefusal.TheVariants.{Text as TextOf};

use awl::refusals::Refusal;
use awl::statements::Statement;
use reader::faults::BlockFault;

// The tables that were too short, handed back as they came.
#[derive(Drop)]
pub struct ShortTable {
    pub statements: Vec<Statement>,
    pub words: Vec<u16>,
}

// Why a write is refused.
#[derive(Clone, Copy)]
pub enum WriteRefusal {
    Text(BlockFault), // 1 to 6, with a line and a column
    NoFreePlace, // 12: as many blocks are held as there is place for
}

impl From<BlockFault> for WriteRefusal {
    ghost from_gives = { λ f r. r ≡ TextOf f };

    fn from(text: BlockFault) -> WriteRefusal {
        WriteRefusal::Text(text)
    }
}

impl WriteRefusal {
    pub fn refusal(self) -> Refusal
        ensures value { result ≡ write_refusal self }
    {
        match self {
            WriteRefusal::Text(fault) => fault.refusal(),
            WriteRefusal::NoFreePlace => Refusal::NoFreePlace,
        }
    }
}
