// Lines to calls of the project. It knows nothing of other lines.
ghost use Rattle.std.specs.Prelude.{◌≡◌, IfOk, vec_items};
ghost use Rattle.std.specs.Option.{option_map};
ghost use Rattle.protocol.specs.Words.{words_of, nth};
ghost use Rattle.protocol.specs.Hex.{hex_of};
ghost use Rattle.protocol.specs.Calls.{two, three, byte, short, long, table_length, block_of, project_size, project_call, sized, project_texts};
ghost use Rattle.protocol.specs.declared.calls.ProjectCall.TheVariants.{Open, Write, Erase, Lay, Word, Data};

use crate::calls::ProjectCall;
use crate::hex::hex;
use crate::names::{ProjectVerb, block_kind_named};
use crate::words::{byte_number, number, word_at, word_count};
use awl::names::BlockName;
use std::alloc::{AllocError, Global};

// The most entries that a table may be asked to have.
const LONGEST_TABLE: u32 = 1000000;

// The call of the project that a line with this first word asks for.
pub(crate) fn project_call(
    heap: Global,
    verb: ProjectVerb,
    line: &[u8],
) -> Result<Option<ProjectCall<Vec<u8>>>, AllocError>
    ensures value { IfOk result (λ o. option_map (project_texts vec_items) o ≡ sized (project_size verb) (words_of line.now) (project_call verb (nth (words_of line.now) 2) (nth (words_of line.now) 3) (nth (words_of line.now) 4))) }
{
    if word_count(line) == project_size(verb) {
        project_arguments(
            heap,
            verb,
            word_at(line, 2),
            word_at(line, 3),
            word_at(line, 4),
        )
    } else {
        Ok(None)
    }
}

// How many words a call of the project has.
fn project_size(verb: ProjectVerb) -> usize
    ensures value { result ≡ project_size verb }
{
    match verb {
        ProjectVerb::Check => 2,
        ProjectVerb::Data => 3,
        ProjectVerb::Erase | ProjectVerb::Lay | ProjectVerb::Word => 4,
        ProjectVerb::Open | ProjectVerb::Write => 5,
    }
}

// The call of the project with these words behind the slot.
fn project_arguments(
    heap: Global,
    verb: ProjectVerb,
    first: &[u8],
    second: &[u8],
    third: &[u8],
) -> Result<Option<ProjectCall<Vec<u8>>>, AllocError>
    ensures value { IfOk result (λ o. option_map (project_texts vec_items) o ≡ project_call verb first.now second.now third.now) }
{
    match verb {
        ProjectVerb::Open => Ok(open(first, second, third)),
        ProjectVerb::Write => write(heap, first, second, third),
        ProjectVerb::Erase => Ok(erase(first, second)),
        ProjectVerb::Lay => Ok(lay(first, second)),
        ProjectVerb::Check => Ok(Some(ProjectCall::Check)),
        ProjectVerb::Word => Ok(word(first, second)),
        ProjectVerb::Data => Ok(data(first)),
    }
}

fn open(project: &[u8], statements: &[u8], words: &[u8]) -> Option<ProjectCall<Vec<u8>>>
    ensures value { result ≡ three Open (long project.now) (table_length statements.now) (table_length words.now) }
{
    Some(ProjectCall::Open {
        number: number(project, u32::MAX)?,
        statements: number(statements, LONGEST_TABLE)?,
        words: number(words, LONGEST_TABLE)?,
    })
}

fn write(
    heap: Global,
    kind: &[u8],
    block_number: &[u8],
    text: &[u8],
) -> Result<Option<ProjectCall<Vec<u8>>>, AllocError>
    ensures value { IfOk result (λ o. option_map (project_texts vec_items) o ≡ two Write (block_of kind.now block_number.now) (hex_of text.now)) }
{
    let Some(block) = block_name(kind, block_number) else {
        return Ok(None);
    };
    Ok(hex(heap, text)?.map(|text| ProjectCall::Write { block, text }))
}

fn erase(kind: &[u8], block_number: &[u8]) -> Option<ProjectCall<Vec<u8>>>
    ensures value { result ≡ option_map Erase (block_of kind.now block_number.now) }
{
    Some(ProjectCall::Erase {
        block: block_name(kind, block_number)?,
    })
}

fn lay(block: &[u8], length: &[u8]) -> Option<ProjectCall<Vec<u8>>>
    ensures value { result ≡ two Lay (byte block.now) (short length.now) }
{
    Some(ProjectCall::Lay {
        number: byte_number(block)?,
        length: number(length, 65535)? as u16,
    })
}

fn word(block: &[u8], place: &[u8]) -> Option<ProjectCall<Vec<u8>>>
    ensures value { result ≡ two Word (byte block.now) (byte place.now) }
{
    Some(ProjectCall::Word {
        data_block: byte_number(block)?,
        number: byte_number(place)?,
    })
}

fn data(block: &[u8]) -> Option<ProjectCall<Vec<u8>>>
    ensures value { result ≡ option_map Data (byte block.now) }
{
    Some(ProjectCall::Data {
        data_block: byte_number(block)?,
    })
}

// The name of a block, by its kind and its number.
fn block_name(kind: &[u8], block_number: &[u8]) -> Option<BlockName>
    ensures value { result ≡ block_of kind.now block_number.now }
{
    Some(BlockName {
        kind: block_kind_named(kind)?,
        number: byte_number(block_number)?,
    })
}
