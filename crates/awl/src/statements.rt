// Operations by name, and statements with the operands that they can have. It knows nothing of how they are typed.
ghost use Rattle.std.specs.Prelude.{◌≡◌};
ghost use Rattle.awl.specs.Written.{call_jump};

use crate::marks::Mark;
use crate::names::BlockName;
use crate::places::{Bit, CounterName, DataPlace, Span, TimerName};

// How a query joins the RLO.
#[derive(Clone, Copy)]
pub enum Combination {
    And, // U
    AndNot, // UN
    Or, // O
    OrNot, // ON
}

// How a bracket joins what stood before it.
#[derive(Clone, Copy)]
pub enum Bracket {
    And, // U(
    Or, // O(
}

#[derive(Clone, Copy)]
pub enum TimerKind {
    Pulse, // SI
    ExtendedPulse, // SV
    OnDelay, // SE
    StoredOnDelay, // SS
}

#[derive(Clone, Copy)]
pub enum Direction {
    Up, // ZV
    Down, // ZR
}

#[derive(Clone, Copy)]
pub enum Arithmetic {
    Add, // +FD
    Subtract, // -FD
    Multiply, // *FD
    Divide, // /FD
}

#[derive(Clone, Copy)]
pub enum Comparison {
    Equal, // !=FD
    Unequal, // ><FD
    Greater, // >FD
    GreaterOrEqual, // >=FD
    Less, // <FD
    LessOrEqual, // <=FD
}

// When a jump is taken.
#[derive(Clone, Copy)]
pub enum JumpCondition {
    Always, // SPA
    Rlo, // SPB
    Zero, // SPZ: Anz0 and Anz1 are 0
    NonZero, // SPN: Anz0 or Anz1 is 1
    Plus, // SPP: Anz1 is 1
    Minus, // SPM: Anz0 is 1
    Overflow, // SPO: Ov is 1
}

// When a block is called.
#[derive(Clone, Copy)]
pub enum CallCondition {
    Always, // SPA
    Rlo, // SPB
}

#[derive(Clone, Copy)]
pub enum BlockEnd {
    End, // BE
    Always, // BEA
    Rlo, // BEB
}

// The bits that answer a query, which are what R can reset.
#[derive(Clone, Copy)]
pub enum Query {
    Bit(Bit), // U E 0.0, R M 3.1
    Timer(TimerName), // U T 1, R T 1
    Counter(CounterName), // U Z 1, R Z 1
}

// What L can load.
#[derive(Clone, Copy)]
pub enum Source {
    Span(Span), // L EB 0
    Data(DataPlace), // L DW 3
    Byte(u8), // L KB 5
    Double(i32), // L KD -70000
    Timer(TimerName), // L T 1
    Counter(CounterName), // L Z 1
}

// What LC can load.
#[derive(Clone, Copy)]
pub enum CodedSource {
    Timer(TimerName), // LC T 1
    Counter(CounterName), // LC Z 1
}

// Where T can store.
#[derive(Clone, Copy)]
pub enum Destination {
    Span(Span), // T AW 2
    Data(DataPlace), // T DD 4
}

// Where a jump goes: its mark, and the statement that carries it, from 1, or none where no statement does.
#[derive(Clone, Copy)]
pub struct Target {
    pub mark: Mark,
    pub statement: Option<u8>,
}

// What the first word of a statement says.
#[derive(Clone, Copy)]
pub enum Operation {
    Combine(Combination), // U UN O ON
    Open(Bracket), // U( O(
    Close, // )
    Set, // S
    Reset, // R
    Assign, // =
    Load, // L
    LoadCoded, // LC
    Transfer, // T
    Start(TimerKind), // SI SV SE SS
    Count(Direction), // ZV ZR
    Calculate(Arithmetic), // +FD -FD *FD /FD
    Compare(Comparison), // !=FD ><FD >FD >=FD <FD <=FD
    Jump(JumpCondition), // SPA SPB SPZ SPN SPP SPM SPO
    End(BlockEnd), // BE BEA BEB
    ChooseData, // A DB
    Stop, // STS
}

#[derive(Clone, Copy)]
pub enum Statement {
    Combine(Combination, Query), // U E 0.0
    OrBefore, // O
    Open(Bracket), // U(
    Close, // )
    Set(Bit), // S A 0.0
    Reset(Query), // R A 0.0
    Assign(Bit), // = A 0.0
    Load(Source), // L EB 0
    LoadCoded(CodedSource), // LC T 1
    Transfer(Destination), // T AB 0
    Start(TimerKind, TimerName), // SE T 1
    Count(Direction, CounterName), // ZV Z 1
    Calculate(Arithmetic), // +FD
    Compare(Comparison), // >=FD
    Jump(JumpCondition, Target), // SPB = M1
    Call(CallCondition, BlockName), // SPA PB 3
    End(BlockEnd), // BE
    ChooseData(u8), // A DB 5
    Stop, // STS
}

// The jump that is written by the same word as the call.
impl From<CallCondition> for JumpCondition {
    ghost from_gives = { λ c r. r ≡ call_jump c };

    fn from(call: CallCondition) -> JumpCondition {
        match call {
            CallCondition::Always => JumpCondition::Always,
            CallCondition::Rlo => JumpCondition::Rlo,
        }
    }
}
