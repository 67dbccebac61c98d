// The text of a block, read line by line. It knows nothing of where blocks are kept.
ghost use Rattle.std.specs.Prelude.{◌≡◌, ◌+◌, ◌<◌, [], ◌∷◌, ◌++◌, map, length, drop, IfOk, if◌then◌else◌, OnSome, nat_lt};
ghost use Rattle.std.specs.Option.{option_map};
ghost use Rattle.awl.specs.Written.{mark_text};
ghost use Rattle.parser.specs.Answers.{map_ok};
ghost use Rattle.reader.specs.Laws.{Lawful, IdleLinesOnlyMove};
ghost use Rattle.reader.specs.Lines.{lines_of, first_line, code_of, holds};
ghost use Rattle.reader.specs.Listed.{entry, listed};
ghost use Rattle.reader.specs.Marked.{placed_seen};
ghost use Rattle.reader.specs.Reading.{carries_mark, carrier, fresh_mark, entry_of, line_entry, lines_read, resolved, reading};

use crate::faults::BlockFault;
use crate::heads::PlacedMark;
use crate::listings::{Block, Line, Listing};
use crate::typed_lines::TypedLine;
use awl::bytes::{ByteClass, tail};
use awl::marks::Mark;
use awl::statements::{Statement, Target};
use lines::Lines;

// The statements of the text, each jump with the statement that carries its mark, or the first fault.
pub fn read(text: &[u8]) -> Result<Block, BlockFault>
    ensures value { map_ok (λ b. listed b.lines b.count) result ≡ reading text.now }
    ensures lawful { IfOk result (λ b. Lawful (listed b.lines b.count)) }
    ensures idle { IdleLinesOnlyMove }
{
    read_block(text)
}

// The line that begins at an index of the text, without the byte 10 that ends it.
pub fn line_at(text: &[u8], at: usize) -> &[u8]
    ensures value { result.now ≡ first_line (drop at text.now) }
{
    let rest = tail(text, at);
    &rest[..ByteClass::InLine.front(rest)]
}

// The text's statements by the definition alone.
fn read_block(text: &[u8]) -> Result<Block, BlockFault>
    ensures value { map_ok (λ b. listed b.lines b.count) result ≡ reading text.now }
{
    let listing = read_lines(text)?;
    if listing.count == 0 {
        return Err(BlockFault::Empty);
    }
    let lines = resolved_lines(&listing);
    Ok(Block {
        lines,
        count: listing.count,
    })
}

// The line with its jump looked up among the listed statements.
fn resolved_line(listing: &Listing, line: Line) -> Line
    ensures value { entry result ≡ resolved (listed listing.now.lines listing.now.count) (entry line) }
{
    match line.statement {
        Statement::Jump(condition, target) => {
            let target = Target {
                statement: listing.carrier(&target.mark),
                ..target
            };
            Line {
                statement: Statement::Jump(condition, target),
                ..line
            }
        }
        _ => line,
    }
}

// The listed lines, each with its jump looked up.
fn resolved_lines(listing: &Listing) -> [Line; 255]
    ensures value { listed result listing.now.count ≡ map (resolved (listed listing.now.lines listing.now.count)) (listed listing.now.lines listing.now.count) }
    ensures size { length result ≡ 255 }
{
    let mut lines = listing.lines;
    resolve(listing, &mut lines[..listing.count]);
    lines
}

// Looks up the jump of each line.
fn resolve(listing: &Listing, lines: &mut [Line])
    ensures after { map entry lines.new ≡ map (resolved (listed listing.now.lines listing.now.count)) (map entry lines.old) }
{
    for line in lines.iter_mut() {
        *line = resolved_line(listing, *line);
    }
}

// All lines of the text, jumps not yet looked up.
fn read_lines(text: &[u8]) -> Result<Listing, BlockFault>
    ensures value { map_ok (λ l. listed l.lines l.count) result ≡ lines_read [] 1 (lines_of text.now) }
{
    let mut listing = Listing::new();
    for (index, bytes) in Lines::of(text).enumerate() {
        let line = TypedLine {
            number: index + 1,
            bytes,
        };
        if let Some(entry) = listing.entry(line)? {
            listing.add(entry);
        }
    }
    Ok(listing)
}

impl Line {
    // Whether the statement carries the mark.
    fn carries(&self, mark: &Mark) -> bool
        ensures value { result ≡ carries_mark (option_map mark_text self.now.mark) (mark_text mark.now) }
    {
        self.mark.is_some_and(|own| own.is(mark))
    }
}

impl Listing {
    // No statement yet.
    fn new() -> Listing
        ensures value { listed result.lines result.count ≡ [] }
    {
        let blank = Line {
            number: 0,
            mark: None,
            statement: Statement::Stop,
        };
        Listing {
            lines: [blank; 255],
            count: 0,
        }
    }

    // The statement of a line, or none. A 256th is refused before its line is looked at.
    #[tactic(auto, using(crate::proofs::Carrying::listed_size), unfolding(crate::specs::Reading::line_entry))]
    fn entry(&self, line: TypedLine) -> Result<Option<Line>, BlockFault>
        ensures value { map_ok (option_map entry) result ≡ line_entry (listed self.now.lines self.now.count) line.entry.number line.entry.bytes.now }
        ensures room { IfOk result (λ o. OnSome o (self.now.count < 255)) }
    {
        if !holds_statement(line.bytes) {
            line.check_bytes()?;
            return Ok(None);
        }
        if self.count == 255 {
            return Err(BlockFault::Full { line: line.number });
        }
        let entry = self.held_entry(line)?;
        Ok(Some(entry))
    }

    // The statement of a line that holds one.
    #[tactic(auto, unfolding(crate::specs::Reading::entry_of))]
    fn held_entry(&self, line: TypedLine) -> Result<Line, BlockFault>
        ensures value { map_ok entry result ≡ entry_of (listed self.now.lines self.now.count) line.entry.number line.entry.bytes.now }
    {
        line.check_bytes()?;
        let head = line.head()?;
        self.check_mark(line.number, head.mark)?;
        let statement = line.statement(head.words)?;
        Ok(Line {
            number: line.number,
            mark: head.mark.map(|placed| placed.mark),
            statement,
        })
    }

    // Refuses a mark that an earlier statement carries.
    fn check_mark(&self, number: usize, mark: Option<PlacedMark>) -> Result<(), BlockFault>
        ensures value { result ≡ fresh_mark (listed self.now.lines self.now.count) number (option_map placed_seen mark) }
    {
        let Some(placed) = mark else {
            return Ok(());
        };
        if self.carrier(&placed.mark).is_some() {
            return Err(BlockFault::MarkTwice {
                line: number,
                column: placed.column,
            });
        }
        Ok(())
    }

    // One statement more; nothing changes where 255 are listed.
    fn add(&mut self, line: Line)
        ensures after { listed self.new.lines self.new.count ≡ (if nat_lt self.old.count 255 then listed self.old.lines self.old.count ++ entry line ∷ [] else listed self.old.lines self.old.count) }
    {
        if self.count < 255 {
            let at = self.count;
            self.lines[at] = line;
            self.count = at + 1;
        }
    }

    // The statement that carries the mark, from 1.
    fn carrier(&self, mark: &Mark) -> Option<u8>
        ensures value { result ≡ carrier (listed self.now.lines self.now.count) (mark_text mark.now) }
    {
        self.lines()
            .iter()
            .position(|line| line.carries(mark))
            .map(|index| index as u8 + 1)
    }
}

// What stands before the comment.
pub fn code_of(line: &[u8]) -> &[u8]
    ensures value { result.now ≡ code_of line.now }
{
    &line[..ByteClass::BeforeComment.front(line)]
}

// Whether anything but spaces stands before the comment.
pub fn holds_statement(line: &[u8]) -> bool
    ensures value { result ≡ holds line.now }
{
    let code = code_of(line);
    ByteClass::Space.front(code) < code.len()
}
