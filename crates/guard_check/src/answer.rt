// The answer for the triplets of a guard, by the shorter of two ways.
ghost use Rattle.std.specs.Prelude.{◌≡◌};
ghost use Rattle.guard_check.specs.clauses.Deciding.{FromGuard, Decided, FullyDecided, first_gap};

use crate::decide::decide;
use gaps::writing::Found;
use saturation::verdict::Verdict;
use search::search;
use truth::formula::Formula;

// No gap is covered.
fn verdict_of(found: Found) -> Verdict
    ensures { result ≡ first_gap found }
{
    match found {
        Found::Done(_) => Verdict::Covered,
        Found::More { written: _, next } => Verdict::Gap(next),
    }
}

// The first gap of the list. Nothing is to be written, so that the search ends where it finds one.
fn by_tables(formula: &Formula) -> Verdict
    requires { FromGuard formula.now.triplets.now formula.now.count formula.now.flags formula.now.root }
    ensures { FullyDecided formula.now.triplets.now formula.now.count formula.now.flags formula.now.root result }
{
    let mut none = [0u32; 1];
    let found = search(formula, 0, &mut none[0..0]);
    verdict_of(found)
}

// At a depth not below the number of flags the first gap is the answer, and no such depth costs more than the list does.
pub fn answer(formula: &Formula, depth: u64) -> Verdict
    requires { FromGuard formula.now.triplets.now formula.now.count formula.now.flags formula.now.root }
    ensures { Decided formula.now.triplets.now formula.now.count formula.now.flags formula.now.root depth result }
{
    if formula.flags as u64 <= depth {
        return by_tables(formula);
    }
    decide(formula, depth)
}
