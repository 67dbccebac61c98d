// Where the statements of a project stand in its file. It knows nothing of faults.
ghost use Rattle.std.specs.Prelude.{◌≡◌, map};
ghost use Rattle.projects.specs.Origins.{line_below, line_of};
ghost use Rattle.projects.specs.Sections.{seen_section, section_named};

use crate::sections::{Section, section_of};
use awl::names::BlockName;
use reader::blocks::read;

// The line of the file where a block's statement stands, both from 1; none where the block or the statement is not there.
pub fn line_of(sections: &[Section], name: BlockName, statement: u8) -> Option<usize>
    ensures value { result ≡ line_of statement (section_named name (map seen_section sections.now)) }
{
    section_of(name, sections).and_then(|section| line_below(section, statement))
}

// The line of the file where a section's statement stands: its line in the text, counted from the head on.
fn line_below(section: Section, statement: u8) -> Option<usize>
    ensures value { result ≡ line_below statement (seen_section section.entry) }
{
    let Ok(block) = read(section.text) else {
        return None;
    };
    let line = block.line(statement)?;
    Some(section.line.saturating_add(line.number))
}
