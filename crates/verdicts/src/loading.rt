// The sections of a project file put into a store, one after another. It knows nothing of checks.
ghost use Rattle.std.specs.Prelude.{◌≡◌, map};
ghost use Rattle.projects.specs.Sections.{seen_section};
ghost use Rattle.verdicts.specs.Loading.{held, write_cause, put_answer, put_after, load_answer, load_after};

use awl::refusals::Refusal;
use projects::heads::Head;
use projects::sections::Section;
use reader::faults::BlockFault;
use store::refusals::WriteRefusal;
use store::store::Store;

// Why a section is refused.
#[derive(Clone, Copy)]
pub enum Cause {
    Text(BlockFault), // 1 to 6: a line of its text
    Whole(Refusal), // 7, 12 or 14: the section as it is
}

impl From<WriteRefusal> for Cause {
    ghost from_gives = { λ w r. r ≡ write_cause w };

    fn from(refusal: WriteRefusal) -> Cause {
        match refusal {
            WriteRefusal::Text(fault) => Cause::Text(fault),
            WriteRefusal::NoFreePlace => Cause::Whole(Refusal::NoFreePlace),
        }
    }
}

// A section that is refused, with the line of its head.
#[derive(Clone, Copy)]
pub struct Rejected {
    pub head: Head,
    pub line: usize,
    pub cause: Cause,
}

// Writes the blocks and lays the data blocks of the sections, up to the first that is refused.
pub fn load(store: &mut Store, sections: &[Section]) -> Result<(), Rejected>
    ensures value { result ≡ load_answer (held store.old) (map seen_section sections.now) }
    ensures after { held store.new ≡ load_after (held store.old) (map seen_section sections.now) }
{
    for section in sections {
        put(store, *section)?;
    }
    Ok(())
}

// One section into the store.
fn put(store: &mut Store, section: Section) -> Result<(), Rejected>
    ensures value { result ≡ put_answer (held store.old) (seen_section section.entry) }
    ensures after { held store.new ≡ put_after (held store.old) (seen_section section.entry) }
{
    let head = section.head;
    let line = section.line;
    match head {
        Head::Block(name) => store.write(name, section.text).map_err(|refusal| Rejected {
            head,
            line,
            cause: Cause::from(refusal),
        }),
        Head::Data { number, length } => {
            store.lay(number, length).map_err(|refusal| Rejected {
                head,
                line,
                cause: Cause::Whole(refusal),
            })
        }
    }
}
