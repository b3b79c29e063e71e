// The answer for triplets, by saturation and the trial of flags.
ghost use Rattle.std.specs.Prelude.{◌≡◌};
ghost use Rattle.relation.specs.clauses.Classes.{kept};
ghost use Rattle.steps.specs.clauses.Resting.{in_use, triplets_at};
ghost use Rattle.saturation.specs.Saturation.{Stable, Flags};
ghost use Rattle.guard_check.specs.clauses.Deciding.{Tested, Decided};

use notation::triplets::flipped;
use relation::classes::Relation;
use saturation::saturate::Saturator;
use saturation::verdict::Verdict;
use steps::rest::FIRST;
use truth::formula::Formula;

// Fixes a flag: to 0, or to 1 where 0 is contradictory, and saturates. Answers the value. A flag that is tied has it already.
fn test(saturator: &Saturator, relation: &mut Relation, flag: usize, depth: u64) -> u64
    requires size { relation.old.size ≡ in_use saturator.now.count }
    requires stable { Stable (Flags saturator.now.flags) (triplets_at saturator.now.triplets.now saturator.now.count) depth (kept relation.old.of) }
    requires flags { Flags saturator.now.flags flag }
    ensures tested { Tested saturator.now.triplets.now saturator.now.count saturator.now.flags depth flag relation.old.of result relation.new.of }
    ensures size { relation.new.size ≡ relation.old.size }
{
    let on = 2 * flag as u16;
    if relation.equal(on, 0) {
        return 1;
    }
    if relation.equal(on, 1) {
        return 0;
    }
    let mut off = *relation;
    off.join(on + 1, 0);
    saturator.saturate(&mut off, depth);
    if off.is_contradictory() {
        relation.join(on, 0);
        saturator.saturate(relation, depth);
        return 1;
    }
    *relation = off;
    0
}

// Starts from "root = false", saturated; then tries the flags in order.
pub fn decide(formula: &Formula, depth: u64) -> Verdict
    ensures { Decided formula.now.triplets.now formula.now.count formula.now.flags formula.now.root depth result }
{
    let saturator = Saturator {
        triplets: formula.triplets,
        count: formula.count,
        flags: formula.flags,
    };
    let mut relation = Relation::fresh().over(FIRST + formula.count);
    relation.join(flipped(formula.root, 1), 0);
    saturator.saturate(&mut relation, depth);
    if relation.is_contradictory() {
        return Verdict::Covered;
    }
    let mut state: u64 = 0;
    for done in 0..formula.flags {
        let bit = test(&saturator, &mut relation, done + 1, depth);
        state = 2 * state + bit;
    }
    if relation.is_contradictory() {
        return Verdict::Undecided;
    }
    Verdict::Gap(state)
}
