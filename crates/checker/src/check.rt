// The check of a project: each block walked once, by itself, and the verdict joined from what was found.
// It knows nothing of machines or hosts.
ghost use Rattle.std.specs.Prelude.{◌≡◌, ◌<◌, length, IfOk, Decides, MatchResult};
ghost use Rattle.awl.specs.declared.refusals.Refusal.TheVariants.{ShortTable};
ghost use Rattle.walk.specs.Search.{cleared};
ghost use Rattle.checker.specs.Counts.{Counts};
ghost use Rattle.checker.specs.Project.{project_of};
ghost use Rattle.checker.specs.Verdicts.{Passes, Judges, is_pass};

use crate::surveys::Survey;
use crate::verdicts::Verdict;
use awl::refusals::Refusal;
use store::store::Store;
use walk::places::Place;

// Passes a project exactly when its walk meets none of K1 to K9, and else names the first. It works in the first 1,530 of the
// places, which are 0 afterwards; the others are not touched. Fewer are refused (8), with none touched.
pub fn check(store: &Store, places: &mut [Place]) -> Result<Verdict, Refusal>
    ensures value { MatchResult result (λ v. Judges (project_of store.now) v) (λ e. (e ≡ ShortTable) × (length places.old < 1530)) }
    ensures exact { IfOk result (λ v. Decides (is_pass v) (Passes (project_of store.now))) }
    ensures after { MatchResult result (λ _. places.new ≡ cleared places.old) (λ _. places.new ≡ places.old) }
{
    let survey = Survey::of(store, places)?;
    Ok(survey.verdict())
}

// The number of statements that the walk comes to. It works in the places as check does.
pub fn walked(store: &Store, places: &mut [Place]) -> Result<usize, Refusal>
    ensures value { MatchResult result (λ n. Counts store.now n) (λ e. (e ≡ ShortTable) × (length places.old < 1530)) }
    ensures after { MatchResult result (λ _. places.new ≡ cleared places.old) (λ _. places.new ≡ places.old) }
{
    let survey = Survey::of(store, places)?;
    Ok(survey.walked())
}
