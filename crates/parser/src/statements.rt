// The statement that the words behind a colon make: one function for each shape of an operand.
// It knows nothing of lines and marks.
ghost use Rattle.std.specs.Prelude.{◌≡◌};
ghost use Rattle.awl.specs.Written.{timer, counter, mark, data_block, mark_text, bit_operand, query_operand, source_operand, coded_operand, destination_operand, call_jump};
ghost use Rattle.parser.specs.Answers.{map_ok, and_then};
ghost use Rattle.lexer.specs.Letters.{letters_of};
ghost use Rattle.lexer.specs.Words.{seen, seen_words, fault_at};
ghost use Rattle.parser.specs.Statements.{expect, behind, operand_among, is_query, is_bit, is_source, is_coded, is_destination, is_timer, is_counter, is_data_block, is_goal, complete, plain, written, statement_with, statement_of};
ghost use Rattle.lexer.specs.declared.faults.WordKind.TheVariants as kind;
ghost use Rattle.lexer.specs.declared.letters.Letters.TheVariants as letters;
ghost use Rattle.awl.specs.declared.statements.Operation.TheVariants as operations;

use awl::marks::Mark;
use awl::names::BlockName;
use awl::places::{Bit, CounterName, TimerName};
use awl::statements::{
    CallCondition, CodedSource, Combination, Destination, JumpCondition, Operation, Query, Source,
    Statement, Target,
};
use lexer::faults::{Flaw, WordFault, WordKind};
use lexer::letters::{Letters, read_letters};
use lexer::names::operation;
use lexer::values::{
    bit_value, byte_value, counter_value, data_value, double_value, mark_value, span_value,
    timer_value,
};
use lexer::words::{LineEnd, Part, Word, Words};

// The words behind a line's colon, and where the line ends.
#[derive(Clone, Copy)]
struct Typed<'a> {
    words: Words<'a>,
    end: LineEnd,
}

// The statement that the words make, a jump's target not yet looked up.
pub fn statement_from(words: Words, end: LineEnd) -> Result<Statement, WordFault>
    ensures value { map_ok written result ≡ statement_of end (seen_words words.entry) }
{
    let typed = Typed { words, end };
    let Some(operation) = operation(words.operation.bytes) else {
        return Err(Word::Operation(words.operation).fault(end));
    };
    typed.statement_with(operation)
}

impl Typed<'_> {
    fn statement_with(self, operation: Operation) -> Result<Statement, WordFault>
        ensures value { map_ok written result ≡ statement_with operation self.entry.end (seen_words self.entry.words) }
    {
        match operation {
            Operation::Combine(how) => self.combined(how),
            Operation::Open(bracket) => self.alone(Statement::Open(bracket)),
            Operation::Close => self.alone(Statement::Close),
            Operation::Set => self.complete(Statement::Set(self.stored_bit()?)),
            Operation::Reset => self.complete(Statement::Reset(self.query()?)),
            Operation::Assign => self.complete(Statement::Assign(self.stored_bit()?)),
            Operation::Load => self.complete(Statement::Load(self.source()?)),
            Operation::LoadCoded => self.complete(Statement::LoadCoded(self.coded_source()?)),
            Operation::Transfer => self.complete(Statement::Transfer(self.destination()?)),
            Operation::Start(kind) => self.complete(Statement::Start(kind, self.timer()?)),
            Operation::Count(way) => self.complete(Statement::Count(way, self.counter()?)),
            Operation::Calculate(how) => self.alone(Statement::Calculate(how)),
            Operation::Compare(how) => self.alone(Statement::Compare(how)),
            Operation::Jump(condition) => self.jump(condition),
            Operation::End(how) => self.alone(Statement::End(how)),
            Operation::ChooseData => self.complete(Statement::ChooseData(self.chosen_data()?)),
            Operation::Stop => self.alone(Statement::Stop),
        }
    }

    // The complete statement, where nothing stands behind its operand.
    fn complete(self, statement: Statement) -> Result<Statement, WordFault>
        ensures value { map_ok written result ≡ complete self.entry.end (seen_words self.entry.words).extra (written statement) }
    {
        finished(statement, self.words.extra, self.end)
    }

    // The complete statement, where nothing stands behind its operation.
    fn alone(self, statement: Statement) -> Result<Statement, WordFault>
        ensures value { map_ok written result ≡ complete self.entry.end (seen_words self.entry.words).operand (written statement) }
    {
        finished(statement, self.words.operand, self.end)
    }

    // The letters of the operand, or none.
    fn letters(self) -> Option<Letters>
        ensures value { result ≡ letters_of (seen_words self.entry.words).operand.bytes }
    {
        read_letters(self.words.operand.bytes)
    }

    // The fault of an operand that the operation does not take.
    fn operand_fault(self) -> WordFault
        ensures value { result ≡ fault_at self.entry.end kind.Operand (seen_words self.entry.words).operand }
    {
        Word::Operand(self.words.operand).fault(self.end)
    }

    // What the number behind the letters is read as.
    fn number<T>(self, value: Option<T>) -> Result<T, WordFault>
        ensures value { result ≡ expect value self.entry.end kind.Number (seen_words self.entry.words).value }
    {
        value.ok_or(Word::Number(self.words.value).fault(self.end))
    }

    // The mark behind the =.
    fn mark(self) -> Result<Mark, WordFault>
        ensures value { map_ok (λ m. mark (mark_text m)) result ≡ behind self.entry.end (seen_words self.entry.words) letters.Jump }
    {
        mark_value(self.words.value.bytes).ok_or(Word::Mark(self.words.value).fault(self.end))
    }

    // U, UN, O and ON with a query, and O alone.
    fn combined(self, how: Combination) -> Result<Statement, WordFault>
        ensures value { map_ok written result ≡ statement_with (operations.Combine how) self.entry.end (seen_words self.entry.words) }
    {
        if matches!(how, Combination::Or) && self.words.operand.is_missing() {
            return Ok(Statement::OrBefore);
        }
        self.complete(Statement::Combine(how, self.query()?))
    }

    // A jump to a mark; SPA and SPB can call a block instead.
    fn jump(self, condition: JumpCondition) -> Result<Statement, WordFault>
        ensures value { map_ok written result ≡ statement_with (operations.Jump condition) self.entry.end (seen_words self.entry.words) }
    {
        match condition {
            JumpCondition::Always => self.jump_or_call(CallCondition::Always),
            JumpCondition::Rlo => self.jump_or_call(CallCondition::Rlo),
            JumpCondition::Zero
            | JumpCondition::NonZero
            | JumpCondition::Plus
            | JumpCondition::Minus
            | JumpCondition::Overflow => match self.letters() {
                Some(Letters::Jump) => self.jump_to_mark(condition),
                _ => Err(self.operand_fault()),
            },
        }
    }

    fn jump_or_call(self, condition: CallCondition) -> Result<Statement, WordFault>
        ensures value { map_ok written result ≡ and_then (operand_among is_goal self.entry.end (seen_words self.entry.words)) (λ x. complete self.entry.end (seen_words self.entry.words).extra (plain (operations.Jump (call_jump condition)) x)) }
    {
        match self.letters() {
            Some(Letters::Jump) => self.jump_to_mark(JumpCondition::from(condition)),
            Some(Letters::Block(kind)) => {
                let number = self.number(byte_value(self.words.value.bytes))?;
                self.complete(Statement::Call(condition, BlockName { kind, number }))
            }
            _ => Err(self.operand_fault()),
        }
    }

    // The jump to the mark behind the =.
    fn jump_to_mark(self, condition: JumpCondition) -> Result<Statement, WordFault>
        ensures value { map_ok written result ≡ and_then (behind self.entry.end (seen_words self.entry.words) letters.Jump) (λ x. complete self.entry.end (seen_words self.entry.words).extra (plain (operations.Jump condition) x)) }
    {
        let target = Target {
            mark: self.mark()?,
            statement: None,
        };
        self.complete(Statement::Jump(condition, target))
    }

    // U, UN, O and ON ask a bit, a timer or a counter, and R resets one.
    fn query(self) -> Result<Query, WordFault>
        ensures value { map_ok query_operand result ≡ operand_among is_query self.entry.end (seen_words self.entry.words) }
    {
        let value = self.words.value.bytes;
        match self.letters() {
            Some(Letters::Area(area)) => Ok(Query::Bit(self.number(bit_value(area, value))?)),
            Some(Letters::Timer) => Ok(Query::Timer(self.number(timer_value(value))?)),
            Some(Letters::Counter) => Ok(Query::Counter(self.number(counter_value(value))?)),
            _ => Err(self.operand_fault()),
        }
    }

    // `stored_bit`, `timer`, `counter` and `chosen_data` differ in their letters, which stand in a pattern; no pattern is a
    // parameter, and a closure with one pattern for each would be no plainer.

    // S and = store a bit.
    fn stored_bit(self) -> Result<Bit, WordFault>
        ensures value { map_ok bit_operand result ≡ operand_among is_bit self.entry.end (seen_words self.entry.words) }
    {
        match self.letters() {
            Some(Letters::Area(area)) => self.number(bit_value(area, self.words.value.bytes)),
            _ => Err(self.operand_fault()),
        }
    }

    // L loads a byte, word or double word, a data place, a constant, a timer or a counter.
    fn source(self) -> Result<Source, WordFault>
        ensures value { map_ok source_operand result ≡ operand_among is_source self.entry.end (seen_words self.entry.words) }
    {
        let value = self.words.value.bytes;
        match self.letters() {
            Some(Letters::Span(area, width)) => {
                Ok(Source::Span(self.number(span_value(area, width, value))?))
            }
            Some(Letters::Data(part)) => Ok(Source::Data(self.number(data_value(part, value))?)),
            Some(Letters::Byte) => Ok(Source::Byte(self.number(byte_value(value))?)),
            Some(Letters::Double) => Ok(Source::Double(self.number(double_value(value))?)),
            Some(Letters::Timer) => Ok(Source::Timer(self.number(timer_value(value))?)),
            Some(Letters::Counter) => Ok(Source::Counter(self.number(counter_value(value))?)),
            _ => Err(self.operand_fault()),
        }
    }

    // LC loads a timer or a counter.
    fn coded_source(self) -> Result<CodedSource, WordFault>
        ensures value { map_ok coded_operand result ≡ operand_among is_coded self.entry.end (seen_words self.entry.words) }
    {
        let value = self.words.value.bytes;
        match self.letters() {
            Some(Letters::Timer) => Ok(CodedSource::Timer(self.number(timer_value(value))?)),
            Some(Letters::Counter) => Ok(CodedSource::Counter(self.number(counter_value(value))?)),
            _ => Err(self.operand_fault()),
        }
    }

    // T stores in a byte, word or double word, or in a data place.
    fn destination(self) -> Result<Destination, WordFault>
        ensures value { map_ok destination_operand result ≡ operand_among is_destination self.entry.end (seen_words self.entry.words) }
    {
        let value = self.words.value.bytes;
        match self.letters() {
            Some(Letters::Span(area, width)) => {
                Ok(Destination::Span(self.number(span_value(area, width, value))?))
            }
            Some(Letters::Data(part)) => Ok(Destination::Data(self.number(data_value(
                part, value,
            ))?)),
            _ => Err(self.operand_fault()),
        }
    }

    // SI, SV, SE and SS start a timer.
    fn timer(self) -> Result<TimerName, WordFault>
        ensures value { map_ok (λ t. timer t.number) result ≡ operand_among is_timer self.entry.end (seen_words self.entry.words) }
    {
        match self.letters() {
            Some(Letters::Timer) => self.number(timer_value(self.words.value.bytes)),
            _ => Err(self.operand_fault()),
        }
    }

    // ZV and ZR count a counter.
    fn counter(self) -> Result<CounterName, WordFault>
        ensures value { map_ok (λ z. counter z.number) result ≡ operand_among is_counter self.entry.end (seen_words self.entry.words) }
    {
        match self.letters() {
            Some(Letters::Counter) => self.number(counter_value(self.words.value.bytes)),
            _ => Err(self.operand_fault()),
        }
    }

    // A DB chooses a data block.
    fn chosen_data(self) -> Result<u8, WordFault>
        ensures value { map_ok data_block result ≡ operand_among is_data_block self.entry.end (seen_words self.entry.words) }
    {
        match self.letters() {
            Some(Letters::DataBlock) => self.number(byte_value(self.words.value.bytes)),
            _ => Err(self.operand_fault()),
        }
    }
}

// The complete statement, where nothing stands behind it.
fn finished(statement: Statement, behind: Part, end: LineEnd) -> Result<Statement, WordFault>
    ensures value { map_ok written result ≡ complete end (seen behind.entry) (written statement) }
{
    if behind.is_missing() {
        return Ok(statement);
    }
    Err(WordFault {
        kind: WordKind::Operand,
        flaw: Flaw::Extra,
        line: end.line,
        column: behind.column,
    })
}
