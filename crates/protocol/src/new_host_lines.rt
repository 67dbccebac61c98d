// Lines that ask for a new host. It knows nothing of other lines.
ghost use Rattle.std.specs.Prelude.{◌≡◌, IfOk, Some, vec_items};
ghost use Rattle.std.specs.Option.{option_map};
ghost use Rattle.protocol.specs.Words.{words_of, nth};
ghost use Rattle.protocol.specs.Names.{host_kind_of};
ghost use Rattle.protocol.specs.Hex.{hex_of};
ghost use Rattle.protocol.specs.Calls.{two, row, kind_size, new_host, new_host_of, host_texts};
ghost use Rattle.protocol.specs.declared.calls.NewHost.TheVariants.{Bench, Feed};

use crate::calls::NewHost;
use crate::hex::hex;
use crate::names::{HostKind, host_kind_named};
use crate::words::{number, word_at, word_count};
use std::alloc::{AllocError, Global};

// The host that a `host` line asks for.
pub(crate) fn new_host(heap: Global, line: &[u8]) -> Result<Option<NewHost<Vec<u8>>>, AllocError>
    ensures value { IfOk result (λ o. option_map (host_texts vec_items) o ≡ new_host_of (host_kind_of (nth (words_of line.now) 2)) (words_of line.now)) }
{
    let Some(kind) = host_kind_named(word_at(line, 2)) else {
        return Ok(None);
    };
    if word_count(line) == kind_size(kind) {
        host_parts(
            heap,
            kind,
            word_at(line, 3),
            word_at(line, 4),
            word_at(line, 5),
        )
    } else {
        Ok(None)
    }
}

// How many words it takes to set a host of this kind.
fn kind_size(kind: HostKind) -> usize
    ensures value { result ≡ kind_size kind }
{
    match kind {
        HostKind::Feed => 4,
        HostKind::Bench | HostKind::MaskFeed => 5,
        HostKind::MaskBench => 6,
    }
}

// The host of this kind with these words behind the kind.
fn host_parts(
    heap: Global,
    kind: HostKind,
    first: &[u8],
    second: &[u8],
    third: &[u8],
) -> Result<Option<NewHost<Vec<u8>>>, AllocError>
    ensures value { IfOk result (λ o. option_map (host_texts vec_items) o ≡ new_host kind first.now second.now third.now) }
{
    match kind {
        HostKind::Bench => bench(heap, None, first, second),
        HostKind::Feed => feed(heap, None, first),
        HostKind::MaskBench => {
            let Some(bits) = number(first, u32::MAX) else {
                return Ok(None);
            };
            bench(heap, Some(bits), second, third)
        }
        HostKind::MaskFeed => {
            let Some(bits) = number(first, u32::MAX) else {
                return Ok(None);
            };
            feed(heap, Some(bits), second)
        }
    }
}

fn bench(
    heap: Global,
    mask: Option<u32>,
    inputs: &[u8],
    outputs: &[u8],
) -> Result<Option<NewHost<Vec<u8>>>, AllocError>
    ensures value { IfOk result (λ o. option_map (host_texts vec_items) o ≡ two (Bench mask) (row (hex_of inputs.now)) (row (hex_of outputs.now))) }
{
    let inputs = bench_row(heap, inputs)?;
    let outputs = bench_row(heap, outputs)?;
    Ok(
        inputs.zip(outputs).map(|(inputs, outputs)| NewHost::Bench {
            mask,
            inputs,
            outputs,
        }),
    )
}

fn feed(
    heap: Global,
    mask: Option<u32>,
    frames: &[u8],
) -> Result<Option<NewHost<Vec<u8>>>, AllocError>
    ensures value { IfOk result (λ o. option_map (host_texts vec_items) o ≡ option_map (Feed mask) (hex_of frames.now)) }
{
    Ok(hex(heap, frames)?.map(|frames| NewHost::Feed { mask, frames }))
}

// The 128 bytes of a bench that a word spells.
fn bench_row(heap: Global, word: &[u8]) -> Result<Option<[u8; 128]>, AllocError>
    ensures value { IfOk result (λ o. o ≡ row (hex_of word.now)) }
{
    Ok(hex(heap, word)?.and_then(|bytes| full_row(bytes.as_slice())))
}

// The bytes, if there are 128 of them.
fn full_row(bytes: &[u8]) -> Option<[u8; 128]>
    ensures value { result ≡ row (Some bytes.now) }
{
    <[u8; 128]>::try_from(bytes).ok()
}
