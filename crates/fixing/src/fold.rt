// Folds a formula, given what became of its flags.
ghost use Rattle.std.specs.Prelude.{◌≡◌, suc, ◌*◌, ◌≤◌, length};
ghost use Rattle.notation.specs.Ceilings.{connective_ceiling};
ghost use Rattle.notation.specs.Triplets.{triplet_variable};
ghost use Rattle.truth.specs.clauses.Computed.{Triplets};
ghost use Rattle.fixing.specs.clauses.Folding.{reading, Table, Folded};

use crate::Left;
use crate::triplet::fix_triplet;
use truth::formula::Formula;

// Folds a formula, given what became of its flags: writes the triplets that are left, over `less` flags, and answers what is left.
pub fn fold(formula: &Formula, less: usize, to: &mut [u16], ys: &mut [u16]) -> Left
    requires long { (less ≤ formula.now.flags) × (2 * triplet_variable (suc connective_ceiling) ≤ length to.old)
        × (3 * connective_ceiling ≤ length ys.old) }
    requires table { Table less formula.now.flags (reading to.old) }
    ensures flags { result.flags ≡ less }
    ensures proper { Triplets result.flags ys.new result.count result.root }
    ensures folded { Folded less formula.now.flags (reading to.old) formula.now.triplets.now formula.now.count formula.now.root
        ys.new result.count result.root }
{
    let xs = formula.triplets;
    let mut c = 0;
    for j in 0..formula.count {
        c = fix_triplet(xs, j, to, ys, c);
    }
    Left {
        count: c,
        root: to[formula.root as usize],
        flags: less,
    }
}
