// How many statements of a block carry a mark, and how many jump to one that no statement carries. It knows nothing of
// text.
ghost use Rattle.std.specs.Prelude.{◌≡◌, count_by};
ghost use Rattle.parser.specs.Statements.{written};
ghost use Rattle.reader.specs.Listed.{listed};
ghost use Rattle.list.specs.Counted.{is_marked, is_lost, is_lost_jump};

use awl::statements::Statement;
use reader::listings::Block;

// How many statements carry a mark.
pub fn marks(block: &Block) -> usize
    ensures value { result ≡ count_by is_marked (listed block.now.lines block.now.count) }
{
    block
        .lines()
        .iter()
        .filter(|line| line.mark.is_some())
        .count()
}

// How many jumps have a mark that no statement carries.
pub fn lost_jumps(block: &Block) -> usize
    ensures value { result ≡ count_by is_lost (listed block.now.lines block.now.count) }
{
    block
        .lines()
        .iter()
        .filter(|line| is_lost_jump(line.statement))
        .count()
}

// Whether the statement is a jump whose mark no statement carries.
fn is_lost_jump(statement: Statement) -> bool
    ensures value { result ≡ is_lost_jump (written statement) }
{
    match statement {
        Statement::Jump(_, target) => target.statement.is_none(),
        _ => false,
    }
}
