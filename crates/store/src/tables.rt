// The tables, a slot at a time. It knows nothing of names, or of what else a table holds.
ghost use Rattle.std.specs.Prelude.{◌≡◌, ◌+◌, ◌*◌, ◌≤◌, length, take, drop, replicate};
ghost use Rattle.std.proofs.Math.Seq.{paste};
ghost use Rattle.store.specs.Runs.{statement_lines};

use awl::statements::Statement;
use reader::listings::{Block, Line};

// So many entries of a slot, from its first.
pub(crate) fn part<T, const WIDTH: usize>(table: &[T], slot: usize, size: usize) -> &[T]
    requires { slot * WIDTH + size ≤ length table.now }
    ensures value { result.now ≡ take size (drop (slot * WIDTH) table.now) }
{
    let first = slot * WIDTH;
    &table[first..first + size]
}

// The block's statements, into a slot of 255 entries.
#[tactic(auto, using(crate::proofs::Spelling::lines_pasted))]
pub(crate) fn put_block(table: &mut [Statement], slot: usize, block: &Block)
    requires { slot * 255 + block.now.count ≤ length table.old }
    ensures after { table.new ≡ paste table.old (slot * 255) (statement_lines block.now.lines) block.now.count }
{
    let first = slot * 255;
    put_lines(table, first, &block.lines[..block.count]);
}

// The statements of the lines, into a table from an entry on.
fn put_lines(table: &mut [Statement], first: usize, lines: &[Line])
    requires { first + length lines.now ≤ length table.old }
    ensures after { table.new ≡ paste table.old first (statement_lines lines.now) (length lines.now) }
{
    for (i, line) in lines.iter().enumerate() {
        table[first + i] = line.statement;
    }
}

// So many zeros, into a data slot of 256 entries.
pub(crate) fn put_zeros(table: &mut [u16], slot: usize, size: usize)
    requires { slot * 256 + size ≤ length table.old }
    ensures after { table.new ≡ paste table.old (slot * 256) (replicate size 0) size }
{
    let first = slot * 256;
    table[first..first + size].fill(0);
}
