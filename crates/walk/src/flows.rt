// What a statement does to the walk: where a scan goes on from it. It knows nothing of what else the statement does.
ghost use Rattle.std.specs.Prelude.{◌≡◌};
ghost use Rattle.parser.specs.Statements.{written};
ghost use Rattle.walk.specs.Flows.{jump_flow, end_flow, flow};

use awl::names::BlockName;
use awl::statements::{BlockEnd, JumpCondition, Statement};

#[derive(Clone, Copy)]
pub enum Flow {
    Plain, // to the next statement
    Open, // U( and O(: to the next statement with one more bracket open
    Close, // ): to the next statement with one less
    Jump(Option<u8>), // SPA =: to the statement that carries its mark, from 1; none where its block lacks the mark
    Branch(Option<u8>), // SPB =, SPZ = and their like: there or to the next statement
    Call(BlockName), // SPA and SPB with a block: into the block, and on to the next statement
    End, // BE and BEA: nowhere
    MayEnd, // BEB: to the next statement
    Stop, // STS: nowhere
    Choose(u8), // A DB: to the next statement
}

// The flow of a statement.
pub fn flow_of(statement: Statement) -> Flow
    ensures value { result ≡ flow (written statement) }
{
    match statement {
        Statement::Open(_) => Flow::Open,
        Statement::Close => Flow::Close,
        Statement::Jump(condition, target) => jump_flow(condition, target.statement),
        Statement::Call(_, name) => Flow::Call(name),
        Statement::End(end) => end_flow(end),
        Statement::ChooseData(number) => Flow::Choose(number),
        Statement::Stop => Flow::Stop,
        _ => Flow::Plain,
    }
}

// A jump that is always taken does not go on; any other may.
fn jump_flow(condition: JumpCondition, target: Option<u8>) -> Flow
    ensures value { result ≡ jump_flow condition target }
{
    match condition {
        JumpCondition::Always => Flow::Jump(target),
        _ => Flow::Branch(target),
    }
}

// A conditional end may go on; any other does not.
fn end_flow(end: BlockEnd) -> Flow
    ensures value { result ≡ end_flow end }
{
    match end {
        BlockEnd::End | BlockEnd::Always => Flow::End,
        BlockEnd::Rlo => Flow::MayEnd,
    }
}
