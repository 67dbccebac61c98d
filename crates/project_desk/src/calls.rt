// The calls on a project that is open. It knows nothing of opening one.
ghost use Rattle.std.specs.Prelude.{◌≡◌, ◌≤◌, length, IfOk, vec_items, MatchResult};
ghost use Rattle.store.specs.Held.{data_blocks};
ghost use Rattle.checker.specs.Project.{project_of};
ghost use Rattle.protocol.specs.Calls.{project_texts};
ghost use Rattle.project_desk.specs.Told.{WordsTold};
ghost use Rattle.project_desk.specs.Projects.{held, CheckTold, Tells, after_call};

use crate::telling::{verdict_told, write_told};
use answers::Answer;
use checker::check::check;
use protocol::calls::ProjectCall;
use std::alloc::{AllocError, Global};
use store::store::Store;
use walk::places::Place;

// The answer to a call, and what the call leaves of the project.
pub(crate) fn answer(
    heap: Global,
    store: &mut Store,
    places: &mut [Place],
    call: ProjectCall<Vec<u8>>,
) -> Result<Answer, AllocError>
    requires { 1530 ≤ length places.old }
    ensures value { IfOk result (λ a. Tells (held store.old) (project_texts vec_items call) a) }
    ensures after { MatchResult result (λ _. held store.new ≡ after_call (held store.old) (project_texts vec_items call)) (λ _. store.new ≡ store.old) }
{
    match call {
        ProjectCall::Open { .. } => Ok(Answer::BadLine),
        ProjectCall::Write { block, text } => Ok(write_told(store.write(block, text.as_slice()))),
        ProjectCall::Erase { block } => Ok(store.erase(block).into()),
        ProjectCall::Lay { number, length } => Ok(store.lay(number, length).into()),
        ProjectCall::Check => Ok(verdict(store, places)),
        ProjectCall::Word { data_block, number } => Ok(store.word(data_block, number).into()),
        ProjectCall::Data { data_block } => words(heap, store, data_block),
    }
}

// The verdict on the project; the places are enough, so that no check is refused.
fn verdict(store: &Store, places: &mut [Place]) -> Answer
    requires { 1530 ≤ length places.old }
    ensures value { CheckTold (project_of store.now) result }
{
    verdict_told(check(store, places).unwrap())
}

// All words of a data block, or none.
fn words(heap: Global, store: &Store, data_block: u8) -> Result<Answer, AllocError>
    ensures value { IfOk result (λ a. WordsTold (data_blocks store.now data_block) a) }
{
    let Some(words) = store.words(data_block) else {
        return Ok(Answer::Nothing);
    };
    Ok(Answer::Words(words.to_vec(heap)?))
}
