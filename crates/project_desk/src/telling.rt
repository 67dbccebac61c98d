// What the store's answers are told as. It knows nothing of the calls.
ghost use Rattle.std.specs.Prelude.{◌≡◌};
ghost use Rattle.project_desk.specs.Told.{write_told, verdict_told};

use answers::Answer;
use awl::refusals::Refusal;
use checker::verdicts::Verdict;
use store::refusals::WriteRefusal;

// A write that is done, or refused: for its text with the line and the column.
pub(crate) fn write_told(answer: Result<(), WriteRefusal>) -> Answer
    ensures value { result ≡ write_told answer }
{
    match answer {
        Ok(()) => Answer::Done,
        Err(WriteRefusal::Text(fault)) => Answer::RefusedAt {
            refusal: fault.refusal(),
            line: fault.line(),
            column: fault.column(),
        },
        Err(WriteRefusal::NoFreePlace) => Answer::Refused(Refusal::NoFreePlace),
    }
}

// Pass, or the first fault.
pub(crate) fn verdict_told(verdict: Verdict) -> Answer
    ensures value { result ≡ verdict_told verdict }
{
    match verdict {
        Ok(()) => Answer::Pass,
        Err(found) => Answer::Fault {
            block: found.block,
            statement: found.statement,
            number: found.fault.number(),
        },
    }
}
