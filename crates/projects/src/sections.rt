// A project file cut into sections at its head lines, each with the lines below it as a part of the file. It knows
// nothing of what the lines of a block say.
ghost use Rattle.std.specs.Prelude.{◌≡◌, ◌+◌, ◌^◌, ◌<◌, min, map, length};
ghost use Rattle.std.specs.Option.{option_map};
ghost use Rattle.parser.specs.Answers.{map_ok, map_err};
ghost use Rattle.lines.specs.Lines.{lines_of};
ghost use Rattle.projects.specs.Heads.{head_of};
ghost use Rattle.projects.specs.Sections.{seen_section, body_size, no_stray, names, section_named, new_name, allowed, section_of, sections_of, Agrees};
ghost use Rattle.projects.specs.declared.sections.FileFault.TheVariants.{Head as HeadOf};
ghost use Rattle.projects.specs.declared.sections.Uncut.TheVariants.{Fault as FaultOf, Memory as NoMemory};

use crate::heads::{Head, HeadFault, is_head, read_head};
use awl::bytes::tail;
use awl::names::BlockName;
use lines::Lines;
use reader::blocks::holds_statement;
use std::alloc::{AllocFailed, Global};

// A head and the lines below it, up to the next head.
#[derive(Clone, Copy)]
pub struct Section<'a> {
    pub head: Head,
    pub line: usize, // the head's line, from 1
    pub text: &'a [u8],
}

// What can be wrong with a file.
#[derive(Clone, Copy)]
pub enum FileFault {
    Head {
        line: usize,
        fault: HeadFault,
    }, // a line that starts with a star and is no head
    Stray {
        line: usize,
    }, // not blank, and below no block's head
    Twice {
        name: BlockName,
        first: usize,
        line: usize,
    }, // a head of a block that an earlier line has
}

// Why a file is not cut.
#[derive(Clone, Copy)]
pub enum Uncut {
    Fault(FileFault),
    Memory, // for the list of the sections
}

impl From<FileFault> for Uncut {
    ghost from_gives = { λ f r. r ≡ FaultOf f };

    fn from(fault: FileFault) -> Uncut {
        Uncut::Fault(fault)
    }
}

impl<T: Drop> From<AllocFailed<T>> for Uncut {
    ghost from_gives = { λ _ r. r ≡ NoMemory };

    fn from(_refused: AllocFailed<T>) -> Uncut {
        Uncut::Memory
    }
}

// The sections of a file in their order, or its first fault. Where a line ends is added up: `enumerate` holds the lines, and
// tells nothing of the text behind one.
pub fn sections(heap: Global, file: &[u8]) -> Result<Vec<Section<'_>>, Uncut>
    ensures value { Agrees result (sections_of file.now) }
{
    check_stray(1, file)?;
    let mut parts = Vec::new(heap);
    let mut at = 0;
    for (index, line) in Lines::of(file).enumerate() {
        at += line.len() + 1;
        if is_head(line) {
            let part = section_below(parts.as_slice(), index, line, tail(file, at))?;
            parts.push(part)?;
        }
    }
    Ok(parts)
}

// The first section that has the block, or none.
pub fn section_of<'a>(name: BlockName, sections: &[Section<'a>]) -> Option<Section<'a>>
    ensures value { option_map seen_section result ≡ section_named name (map seen_section sections.now) }
{
    sections
        .iter()
        .find(|section| section.head.names(name))
        .copied()
}

impl Head {
    // Whether it is the head of the block.
    fn names(self, name: BlockName) -> bool
        ensures value { result ≡ names self name }
    {
        match self {
            Head::Block(own) => own == name,
            Head::Data { .. } => false,
        }
    }
}

// How many bytes stand before the next head line.
fn body_size(text: &[u8]) -> usize
    ensures value { result ≡ min (body_size (lines_of text.now)) (length text.now) }
{
    let mut size = 0;
    for line in Lines::of(text) {
        if is_head(line) {
            return size;
        }
        size += line.len() + 1;
    }
    text.len()
}

// Refuses a line that is not blank and stands before the next head line; the text's first line has the number.
fn check_stray(first: usize, text: &[u8]) -> Result<(), FileFault>
    requires { first + length text.now < 2 ^ 64 }
    ensures value { result ≡ no_stray first (lines_of text.now) }
{
    for (index, line) in Lines::of(text).enumerate() {
        if is_head(line) {
            return Ok(());
        }
        if holds_statement(line) {
            return Err(FileFault::Stray {
                line: first + index,
            });
        }
    }
    Ok(())
}

// Refuses a head of a block that an earlier line has.
fn check_new(name: BlockName, line: usize, above: &[Section]) -> Result<(), FileFault>
    ensures value { result ≡ new_name name line (section_named name (map seen_section above.now)) }
{
    match section_of(name, above) {
        Some(earlier) => Err(FileFault::Twice {
            name,
            first: earlier.line,
            line,
        }),
        None => Ok(()),
    }
}

// Refuses a head that may not stand below some sections or above some lines.
fn check_head(above: &[Section], number: usize, head: Head, below: &[u8]) -> Result<(), FileFault>
    requires { number + 1 + length below.now < 2 ^ 64 }
    ensures value { result ≡ allowed (map seen_section above.now) number (lines_of below.now) head }
{
    match head {
        Head::Block(name) => check_new(name, number, above),
        Head::Data { .. } => check_stray(number + 1, below),
    }
}

// What the head line of a number says, its fault as the file's.
fn head_at(number: usize, line: &[u8]) -> Result<Head, FileFault>
    ensures value { result ≡ map_err (HeadOf number) (head_of line.now) }
{
    read_head(line).map_err(|fault| FileFault::Head {
        line: number,
        fault,
    })
}

// The section of the head line at an index, from 0, with what stands below it.
#[tactic(auto, using(crate::proofs::Cutting::take_min), unfolding(crate::specs::Sections::section_of))]
fn section_below<'a>(
    above: &[Section],
    index: usize,
    line: &[u8],
    below: &'a [u8],
) -> Result<Section<'a>, FileFault>
    requires { index + 2 + length below.now < 2 ^ 64 }
    ensures value { map_ok seen_section result ≡ section_of (map seen_section above.now) (index + 1) line.now below.now }
{
    let number = index + 1;
    let head = head_at(number, line)?;
    check_head(above, number, head, below)?;
    Ok(Section {
        head,
        line: number,
        text: &below[0..body_size(below)],
    })
}
