// Fixes the flags of a mask as in a state; the others, which are free, are numbered in order.
ghost use Rattle.std.specs.Prelude.{◌≡◌, suc, ◌+◌, ◌*◌, ◌^◌, ◌≤◌, ◌<◌, length, get_or};
ghost use Rattle.ground.specs.Choice.{choose};
ghost use Rattle.notation.specs.Ceilings.{flag_ceiling, connective_ceiling};
ghost use Rattle.notation.specs.Triplets.{triplet_variable};
ghost use Rattle.truth.specs.clauses.Computed.{Triplets};
ghost use Rattle.fixing.specs.clauses.Fixing.{PutAt};
ghost use Rattle.freeing.specs.clauses.Some.{flag_literal, Begun, FixedSome};

use fixing::Left;
use fixing::fold::fold;
use fixing::triplet::{constant, put};
use truth::formula::Formula;
use truth::states::is_set;

// What becomes of flag i, after so many free ones: a constant where it is kept, else the next free flag. Answers how many are free.
fn start_flag(to: &mut [u16], i: usize, kept: bool, value: bool, free: usize) -> usize
    requires { (free < i) × (2 * i + 1 < length to.old) × (i ≤ flag_ceiling) }
    ensures { PutAt to.old i (flag_literal kept value (suc free)) to.new × (result ≡ free + choose kept 0 1) }
{
    if kept {
        let t = constant(value);
        put(to, i, t);
        return free;
    }
    let t = (2 * (free + 1)) as u16;
    put(to, i, t);
    free + 1
}

// What becomes of the flags, true and false being there.
fn start_flags(to: &mut [u16], n: usize, keep: u64, state: u64) -> usize
    requires { (n ≤ flag_ceiling) × (2 * triplet_variable 1 ≤ length to.old) × (get_or to.old 0 0 ≡ 0) × (get_or to.old 1 0 ≡ 1) }
    ensures { Begun n keep state n to.old to.new result }
{
    let mut free = 0;
    for i in 0..n {
        let place = n - (i + 1);
        let kept = is_set(keep, place);
        let value = is_set(state, place);
        free = start_flag(to, i + 1, kept, value, free);
    }
    free
}

// What becomes of true and of n flags. Answers how many are free.
fn start_some(to: &mut [u16], n: usize, keep: u64, state: u64) -> usize
    requires { (n ≤ flag_ceiling) × (2 * triplet_variable 1 ≤ length to.old) }
    ensures { Begun n keep state n to.old to.new result }
{
    to[0] = 0;
    to[1] = 1;
    start_flags(to, n, keep, state)
}

// Fixes the flags of `keep` as in the state: writes the triplets that are left, over the free flags, and answers what is left.
pub fn fix_some(formula: &Formula, keep: u64, state: u64, to: &mut [u16], ys: &mut [u16]) -> Left
    requires { (2 * triplet_variable (suc connective_ceiling) ≤ length to.old) × (3 * connective_ceiling ≤ length ys.old) }
    ensures proper { Triplets result.flags ys.new result.count result.root }
    ensures fixed { FixedSome formula.now.flags keep state formula.now.triplets.now formula.now.count formula.now.root
        ys.new result.flags result.count result.root }
{
    let free = start_some(to, formula.flags, keep, state);
    fold(formula, free, to, ys)
}
