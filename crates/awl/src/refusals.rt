// Why a call is refused, each reason with its number. It knows nothing of the calls.
ghost use Rattle.std.specs.Prelude.{◌≡◌};
ghost use Rattle.awl.specs.Refusals.{refusal_number};

#[derive(Clone, Copy, PartialEq, Eq)]
pub enum Refusal {
    Byte = 1, // a byte other than 32 to 126 and 10
    Operation = 2, // colon or operation missing, or operation unknown
    Operand = 3, // operand missing, extra, or of another operation
    Number = 4, // number absent, malformed, of more than ten digits, or out of range
    Mark = 5, // mark malformed, absent after =, or defined twice
    StatementCount = 6, // no statement, or a 256th
    DataLength = 7, // data length not 1 to 256
    ShortTable = 8, // a table too short
    Frame = 9, // malformed frame line, or none
    ScanOpen = 11, // a scan is open
    NoFreePlace = 12, // no free place for one more block
    NotHeld = 13, // block not held
    LaidAlready = 14, // data block laid already
    NotPassed = 15, // no pass since the last granted write, erase or lay
    Ticket = 16, // ticket of another project, or no scan open
    ScanOver = 17, // run on of a scan that ended or stopped
    ScanNotEnded = 18, // finish of a scan that has not ended
}

impl Refusal {
    // The number by which users know the refusal.
    pub fn number(self) -> u8
        ensures value { result ≡ refusal_number self }
    {
        self as u8
    }
}
