// The slot for a project: empty until an open is granted, and then full for good. It knows nothing of how a call is
// written.
ghost use Rattle.std.specs.Prelude.{◌≡◌, replicate, IfOk, if◌then◌else◌, Some, None, vec_items, MatchResult};
ghost use Rattle.std.specs.Option.{option_map};
ghost use Rattle.protocol.specs.Calls.{project_texts};
ghost use Rattle.project_desk.specs.Projects.{held, fresh, is_long, EmptyTells, empty_after, SlotTells, slot_after, project_in};

use crate::calls;
use answers::Answer;
use awl::refusals::Refusal;
use awl::statements::Statement;
use protocol::calls::ProjectCall;
use std::alloc::{AllocError, Global};
use store::store::Store;
use walk::places::Place;

// The places are those that a check works in.
#[derive(Drop)]
pub struct ProjectSlot {
    store: Option<Store>,
    places: [Place; 1530],
}

impl ProjectSlot {
    // A slot without a project.
    pub fn empty() -> ProjectSlot
        ensures value { project_in result ≡ None }
        ensures places { result.places ≡ replicate 1530 (record { statement = 0; brackets = 0 }) }
    {
        let place = Place {
            statement: 0,
            brackets: 0,
        };
        ProjectSlot {
            store: None,
            places: [place; 1530],
        }
    }

    // The answer to a call, and what the call leaves of the slot; for want of memory no answer and no change.
    pub fn answer(&mut self, heap: Global, call: ProjectCall<Vec<u8>>) -> Result<Answer, AllocError>
        ensures value { IfOk result (λ a. SlotTells (project_in self.old) (project_texts vec_items call) a) }
        ensures after { MatchResult result (λ _. project_in self.new ≡ slot_after (project_in self.old) (project_texts vec_items call)) (λ _. project_in self.new ≡ project_in self.old) }
    {
        match &mut self.store {
            Some(store) => calls::answer(heap, store, &mut self.places, call),
            None => self.empty_answer(heap, call),
        }
    }

    // The answer to a call where no project is open.
    fn empty_answer(
        &mut self,
        heap: Global,
        call: ProjectCall<Vec<u8>>,
    ) -> Result<Answer, AllocError>
        requires { self.old.store ≡ None }
        ensures value { IfOk result (λ a. EmptyTells (project_texts vec_items call) a) }
        ensures after { MatchResult result (λ _. project_in self.new ≡ empty_after (project_texts vec_items call)) (λ _. project_in self.new ≡ project_in self.old) }
    {
        let ProjectCall::Open {
            number,
            statements,
            words,
        } = call
        else {
            return Ok(Answer::BadLine);
        };
        let Some(store) = opened(heap, number, statements, words)? else {
            return Ok(Answer::Refused(Refusal::ShortTable));
        };
        self.store = Some(store);
        Ok(Answer::Done)
    }
}

// A project with tables of these lengths; none where one is too short.
fn opened(
    heap: Global,
    number: u32,
    statements: u32,
    words: u32,
) -> Result<Option<Store>, AllocError>
    ensures value { IfOk result (λ o. option_map held o ≡ (if is_long statements words then Some (fresh number) else None)) }
{
    let statements = vec![in heap; Statement::Stop; statements as usize]?;
    let words = vec![in heap; 0; words as usize]?;
    Ok(Store::open(number, statements, words).ok())
}
