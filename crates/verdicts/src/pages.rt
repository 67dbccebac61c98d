// What is said of a project file: that it passes, its first fault, or why it is refused. It knows nothing of where the
// file comes from.
ghost use Rattle.std.specs.Prelude.{◌≡◌, ◌≤◌, map, length, IfOk, string_bytes};
ghost use Rattle.checker.specs.Counts.{Counts};
ghost use Rattle.checker.specs.Project.{project_of};
ghost use Rattle.checker.specs.Verdicts.{Judges, is_pass};
ghost use Rattle.projects.specs.Sections.{seen_section, sections_of};
ghost use Rattle.store.specs.Held.{block_count};
ghost use Rattle.verdicts.specs.Loading.{held, load_answer};
ghost use Rattle.verdicts.specs.Pages.{Says, empty, passed_text, verdict_text, JudgedPage, CutPage, PageOf};

use crate::found::found_report;
use crate::loading::load;
use crate::rejected::rejected_report;
use awl::statements::Statement;
use checker::check::{check, walked};
use checker::verdicts::Verdict;
use projects::origins::line_of;
use projects::sections::{Section, Uncut, sections};
use projects::told::file_report;
use std::alloc::{AllocError, Global};
use store::store::Store;
use walk::places::Place;

// What is said of a file, and whether it passes. Not an enum of the two: the text is written either way.
#[derive(Drop)]
pub struct Page {
    pub text: String,
    pub passed: bool,
}

// How many blocks are held, and how many statements are on the walk.
#[derive(Clone, Copy)]
pub struct Sizes {
    pub blocks: usize,
    pub walked: usize,
}

// What a check says of a project.
#[derive(Clone, Copy)]
pub struct Judged {
    pub verdict: Verdict,
    pub sizes: Sizes,
}

impl Page {
    // The verdict on the project of a file, or why the file is refused.
    pub fn new(heap: Global, file: &[u8]) -> Result<Page, AllocError>
        ensures value { IfOk result (λ p. PageOf p (sections_of file.now) file.now) }
    {
        match sections(heap, file) {
            Ok(sections) => cut_page(heap, sections.as_slice(), file),
            Err(Uncut::Fault(fault)) => Ok(Page {
                text: file_report(heap, fault, file)?,
                passed: false,
            }),
            Err(Uncut::Memory) => Err(AllocError),
        }
    }
}

// What is said of a file that is cut.
fn cut_page(heap: Global, sections: &[Section], file: &[u8]) -> Result<Page, AllocError>
    ensures value { IfOk result (λ p. CutPage p (load_answer empty (map seen_section sections.now)) (map seen_section sections.now) file.now) }
{
    let mut store = new_store(heap)?;
    match load(&mut store, sections) {
        Ok(()) => judged_page(heap, &store, sections, file),
        Err(rejected) => Ok(Page {
            text: rejected_report(heap, rejected, file)?,
            passed: false,
        }),
    }
}

// What is said of a project that is held.
fn judged_page(
    heap: Global,
    store: &Store,
    sections: &[Section],
    file: &[u8],
) -> Result<Page, AllocError>
    ensures value { IfOk result (λ p. JudgedPage p (held store.now) (map seen_section sections.now) file.now) }
{
    let blank = Place {
        statement: 0,
        brackets: 0,
    };
    let mut places = vec![in heap; blank; 1530]?;
    let judged = judge(store, places.as_mut_slice());
    verdict_page(heap, judged, sections, file)
}

// The verdict and the sizes.
fn judge(store: &Store, places: &mut [Place]) -> Judged
    requires { 1530 ≤ length places.old }
    ensures value { Judges (project_of store.now) result.verdict }
    ensures count { result.sizes.blocks ≡ block_count store.now }
    ensures walked { Counts store.now result.sizes.walked }
{
    let blocks = store.block_count();
    let verdict = check(store, places).unwrap();
    let walked = walked(store, places).unwrap();
    Judged {
        verdict,
        sizes: Sizes { blocks, walked },
    }
}

// What is said of a verdict.
fn verdict_page(
    heap: Global,
    judged: Judged,
    sections: &[Section],
    file: &[u8],
) -> Result<Page, AllocError>
    ensures value { IfOk result (λ p. Says p (verdict_text judged (map seen_section sections.now) file.now) (is_pass judged.verdict)) }
{
    match judged.verdict {
        Ok(()) => Ok(Page {
            text: passed_text(heap, judged.sizes)?,
            passed: true,
        }),
        Err(found) => {
            let line = line_of(sections, found.block, found.statement);
            Ok(Page {
                text: found_report(heap, found, line, file)?,
                passed: false,
            })
        }
    }
}

fn passed_text(heap: Global, sizes: Sizes) -> Result<String, AllocError>
    ensures value { IfOk result (λ s. string_bytes s ≡ passed_text sizes) }
{
    let blocks = sizes.blocks;
    let walked = sizes.walked;
    format!(in heap; "passed: {blocks} blocks, {walked} statements on the walk\n")
}

// A store that holds nothing.
fn new_store(heap: Global) -> Result<Store, AllocError>
    ensures value { IfOk result (λ s. held s ≡ empty) }
{
    let statements = vec![in heap; Statement::Stop; 8160]?;
    let words = vec![in heap; 0u16; 4096]?;
    Ok(Store::open(0, statements, words).unwrap())
}
