// What a triplet becomes where its operands are known: a literal that stands for it, or one of the triplets that are left.
ghost use Rattle.std.specs.Prelude.{◌≡◌, suc, ◌+◌, ◌*◌, ◌^◌, ◌≤◌, ◌<◌, length};
ghost use Rattle.ground.specs.Choice.{choose};
ghost use Rattle.notation.specs.Ceilings.{connective_ceiling};
ghost use Rattle.notation.specs.Triplets.{triplet_variable};
ghost use Rattle.fixing.specs.clauses.Fixing.{Simplified, PutAt, Operands, TripletFixed};

use notation::ceilings::FLAGS;
use notation::triplets::negated;

// The literal of a truth value.
pub fn constant(b: bool) -> u16
    ensures { (result ≡ choose b 0 1) × (result ≤ 1) }
{
    if b { 0 } else { 1 }
}

// A literal that stands for the triplet of this kind of y and z, or x where there is none: `y implies z` of kind 0, else `y same as z`.
fn simplified(kind: u16, y: u16, z: u16, x: u16) -> u16
    requires { (kind ≤ 1) × (y + 1 < 2 ^ 16) × (z + 1 < 2 ^ 16) }
    ensures { Simplified kind y z x result }
{
    let implies = kind == 0;
    if y == 0 {
        return z;
    }
    if z == 1 {
        return negated(y);
    }
    if y == z {
        return 0;
    }
    if y == 1 {
        return if implies { 0 } else { negated(z) };
    }
    if z == 0 {
        return if implies { 0 } else { y };
    }
    if y == negated(z) {
        return if implies { z } else { 1 };
    }
    x
}

// Notes that a variable became the literal t.
pub fn put(to: &mut [u16], variable: usize, t: u16)
    requires { (t + 1 < 2 ^ 16) × (2 * variable + 1 < length to.old) }
    ensures { PutAt to.old variable t to.new }
{
    to[2 * variable] = t;
    to[2 * variable + 1] = negated(t);
}

// Fixes triplet j, given that c are left before it: a literal stands for it, or it is one more. Answers how many are left.
pub fn fix_triplet(xs: &[u16], j: usize, to: &mut [u16], ys: &mut [u16], c: usize) -> usize
    requires j_lt_connective_ceiling { (j < connective_ceiling) × (c ≤ j) × (3 * j + 2 < length xs.now) × (3 * c + 2 < length ys.old)
        × (2 * triplet_variable (suc j) + 1 < length to.old) }
    requires operands { Operands xs.now j to.old }
    ensures { TripletFixed xs.now j to.old c ys.old to.new result ys.new }
{
    let kind = xs[3 * j];
    let y = to[xs[3 * j + 1] as usize];
    let z = to[xs[3 * j + 2] as usize];
    let x = (2 * (FLAGS + 1 + c)) as u16;
    let t = simplified(kind, y, z, x);
    put(to, FLAGS + 1 + j, t);
    ys[3 * c] = kind;
    ys[3 * c + 1] = y;
    ys[3 * c + 2] = z;
    if t == x { c + 1 } else { c }
}
