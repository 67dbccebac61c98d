// What a check answers. It knows nothing of how it is found.
use awl::names::BlockName;
use walk::faults::Fault;

// A fault with the statement that has it: statement 0 of OB 1 where there is no OB 1. In order by block, then by statement,
// then by fault.
#[derive(Clone, Copy, PartialEq, Eq, PartialOrd, Ord)]
pub struct Found {
    pub block: BlockName,
    pub statement: u8,
    pub fault: Fault,
}

// Ok: the walk meets none of K1 to K9. Err: the first fault that it meets.
pub type Verdict = Result<(), Found>;
