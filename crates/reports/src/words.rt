// What is wrong with a text, in plain words. Functions and no displays of the faults: these are of crates below, to which it is
// all one how a person is told. It knows nothing of where it stands.
ghost use Rattle.std.specs.Prelude.{◌≡◌};
ghost use Rattle.reports.specs.Words.{missing_words, malformed_words, word_words, line_words, block_words, refusal_words};

use awl::refusals::Refusal;
use lexer::faults::{Flaw, WordFault, WordKind};
use reader::faults::{BlockFault, LineFault};

// What is wrong with the text.
pub fn block_words(fault: BlockFault) -> &'static str
    ensures value { result.now ≡ block_words fault }
{
    match fault {
        BlockFault::Line(fault) => line_words(fault),
        BlockFault::MarkTwice { line: _, column: _ } =>
            "the mark stands at an earlier statement too",
        BlockFault::Full { line: _ } => "a 256th statement",
        BlockFault::Empty => "no statement in the text",
    }
}

// What a refusal means, whatever its place.
pub fn refusal_words(refusal: Refusal) -> &'static str
    ensures value { result.now ≡ refusal_words refusal }
{
    match refusal {
        Refusal::Byte => "a byte that is no printable character",
        Refusal::Operation =>
            "the colon or the operation is missing, or there is no such operation",
        Refusal::Operand => "the operand is missing or of another operation, or a word is too many",
        Refusal::Number => "the number is missing or does not fit",
        Refusal::Mark => "the mark is missing or malformed, or stands twice",
        Refusal::StatementCount => "a block has 1 to 255 statements",
        Refusal::DataLength => "a data block has 1 to 256 words",
        Refusal::ShortTable => "a table is too short",
        Refusal::Frame => "a frame line is malformed or missing",
        Refusal::ScanOpen => "a scan is open",
        Refusal::NoFreePlace => "no free place: 32 blocks and 16 data blocks are the most",
        Refusal::NotHeld => "the block is not held",
        Refusal::LaidAlready => "the data block is laid already",
        Refusal::NotPassed => "no check has passed since the last change",
        Refusal::Ticket => "the ticket is of another project, or no scan is open",
        Refusal::ScanOver => "the scan has ended or stopped",
        Refusal::ScanNotEnded => "the scan has not ended",
    }
}

// What is wrong with a line.
fn line_words(fault: LineFault) -> &'static str
    ensures value { result.now ≡ line_words fault }
{
    match fault {
        LineFault::Byte { line: _, column: _ } => "a byte that is no printable character",
        LineFault::Colon { line: _, column: _ } => "the colon is missing",
        LineFault::Word(fault) => word_words(fault),
    }
}

// What is wrong with a word.
fn word_words(fault: WordFault) -> &'static str
    ensures value { result.now ≡ word_words fault.kind fault.flaw }
{
    match fault.flaw {
        Flaw::Missing => missing_words(fault.kind),
        Flaw::Malformed => malformed_words(fault.kind),
        Flaw::Extra => "a word too many",
    }
}

// What is said of a word that is not there.
fn missing_words(kind: WordKind) -> &'static str
    ensures value { result.now ≡ missing_words kind }
{
    match kind {
        WordKind::Mark => "the mark is missing",
        WordKind::Operation => "the operation is missing",
        WordKind::Operand => "the operand is missing",
        WordKind::Number => "the number is missing",
    }
}

// What is said of a word that is none of its kind.
fn malformed_words(kind: WordKind) -> &'static str
    ensures value { result.now ≡ malformed_words kind }
{
    match kind {
        WordKind::Mark => "not a mark (a capital, then up to five capitals or digits)",
        WordKind::Operation => "there is no such operation",
        WordKind::Operand => "no operand of this operation",
        WordKind::Number => "no number that fits here",
    }
}
