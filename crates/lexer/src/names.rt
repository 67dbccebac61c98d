// The names of the operations. It knows nothing of operands.
ghost use Rattle.std.specs.Prelude.{◌≡◌, MatchOption, ◌≢◌};
ghost use Rattle.awl.specs.declared.statements.Operation.{Operation};
ghost use Rattle.lexer.specs.Names.{name_of};

use awl::statements::{
    Arithmetic, BlockEnd, Bracket, Combination, Comparison, Direction, JumpCondition, Operation,
    TimerKind,
};

// The operation with the name that the bytes spell, or none.
pub fn operation(word: &[u8]) -> Option<Operation>
    ensures value { MatchOption result ((o : Operation) → name_of o ≢ word.now) (λ o. name_of o ≡ word.now) }
{
    match word {
        b"U" => Some(Operation::Combine(Combination::And)),
        b"UN" => Some(Operation::Combine(Combination::AndNot)),
        b"O" => Some(Operation::Combine(Combination::Or)),
        b"ON" => Some(Operation::Combine(Combination::OrNot)),
        b"U(" => Some(Operation::Open(Bracket::And)),
        b"O(" => Some(Operation::Open(Bracket::Or)),
        b")" => Some(Operation::Close),
        b"S" => Some(Operation::Set),
        b"R" => Some(Operation::Reset),
        b"=" => Some(Operation::Assign),
        b"L" => Some(Operation::Load),
        b"LC" => Some(Operation::LoadCoded),
        b"T" => Some(Operation::Transfer),
        b"SI" => Some(Operation::Start(TimerKind::Pulse)),
        b"SV" => Some(Operation::Start(TimerKind::ExtendedPulse)),
        b"SE" => Some(Operation::Start(TimerKind::OnDelay)),
        b"SS" => Some(Operation::Start(TimerKind::StoredOnDelay)),
        b"ZV" => Some(Operation::Count(Direction::Up)),
        b"ZR" => Some(Operation::Count(Direction::Down)),
        b"+FD" => Some(Operation::Calculate(Arithmetic::Add)),
        b"-FD" => Some(Operation::Calculate(Arithmetic::Subtract)),
        b"*FD" => Some(Operation::Calculate(Arithmetic::Multiply)),
        b"/FD" => Some(Operation::Calculate(Arithmetic::Divide)),
        b"!=FD" => Some(Operation::Compare(Comparison::Equal)),
        b"><FD" => Some(Operation::Compare(Comparison::Unequal)),
        b">FD" => Some(Operation::Compare(Comparison::Greater)),
        b">=FD" => Some(Operation::Compare(Comparison::GreaterOrEqual)),
        b"<FD" => Some(Operation::Compare(Comparison::Less)),
        b"<=FD" => Some(Operation::Compare(Comparison::LessOrEqual)),
        b"SPA" => Some(Operation::Jump(JumpCondition::Always)),
        b"SPB" => Some(Operation::Jump(JumpCondition::Rlo)),
        b"SPZ" => Some(Operation::Jump(JumpCondition::Zero)),
        b"SPN" => Some(Operation::Jump(JumpCondition::NonZero)),
        b"SPP" => Some(Operation::Jump(JumpCondition::Plus)),
        b"SPM" => Some(Operation::Jump(JumpCondition::Minus)),
        b"SPO" => Some(Operation::Jump(JumpCondition::Overflow)),
        b"BE" => Some(Operation::End(BlockEnd::End)),
        b"BEA" => Some(Operation::End(BlockEnd::Always)),
        b"BEB" => Some(Operation::End(BlockEnd::Rlo)),
        b"A" => Some(Operation::ChooseData),
        b"STS" => Some(Operation::Stop),
        _ => None,
    }
}
