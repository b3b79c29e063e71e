// Fixes the first flag of a guard's triplets: what becomes constant, or another's equal, goes.
#![tactic(auto)]

pub mod fold;
pub mod triplet;

ghost use Rattle.std.specs.Prelude.{◌≡◌, suc, ◌+◌, ◌*◌, ◌-◌, ◌≤◌, ◌<◌, length};
ghost use Rattle.notation.specs.Ceilings.{flag_ceiling, connective_ceiling};
ghost use Rattle.notation.specs.Triplets.{triplet_variable};
ghost use Rattle.truth.specs.clauses.Computed.{Triplets};
ghost use Rattle.fixing.specs.clauses.Fixing.{StartedBy, Fixed};

use crate::fold::fold;
use crate::triplet::constant;
use truth::formula::Formula;

// What is left of a formula: so many triplets, over so many flags, and what became of the root.
#[derive(Clone, Copy)]
pub struct Left {
    pub count: usize,
    pub root: u16,
    pub flags: usize,
}

// What becomes of true and of the flags: the first is b, each further one is one less.
fn start(to: &mut [u16], n: usize, b: bool)
    requires { (n < flag_ceiling) × (2 * triplet_variable 1 ≤ length to.old) }
    ensures { StartedBy b to.old to.new (2 * n + 4) }
{
    let first = constant(b);
    to[0] = 0;
    to[1] = 1;
    to[2] = first;
    to[3] = 1 - first;
    for l in 4..2 * n + 4 {
        to[l] = (l - 2) as u16;
    }
}

// Fixes the first flag of a formula as b: writes the triplets that are left, over one flag fewer, and answers what is left.
pub fn fix_first(formula: &Formula, b: bool, to: &mut [u16], ys: &mut [u16]) -> Left
    requires some_flag { 0 < formula.now.flags }
    requires long { (2 * triplet_variable (suc connective_ceiling) ≤ length to.old) × (3 * connective_ceiling ≤ length ys.old) }
    ensures flags { result.flags ≡ formula.now.flags - 1 }
    ensures proper { Triplets result.flags ys.new result.count result.root }
    ensures fixed { Fixed (formula.now.flags - 1) b formula.now.triplets.now formula.now.count formula.now.root
        ys.new result.count result.root }
{
    let less = formula.flags - 1;
    start(to, less, b);
    fold(formula, less, to, ys)
}
