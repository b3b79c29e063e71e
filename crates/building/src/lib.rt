// Guards built of guards whose triplets stand in a pool.
#![tactic(auto)]

pub mod spans;

ghost use Rattle.std.specs.Prelude.{◌≡◌, ◌+◌, ◌*◌, ◌≤◌, ◌<◌, length};
ghost use Rattle.notation.specs.Ceilings.{connective_ceiling};
ghost use Rattle.notation.specs.Triplets.{triplet_of, literal_of, triplet_variable, literal_ceiling};
ghost use Rattle.notation.specs.clauses.Cut.{sign_of};
ghost use Rattle.notation.specs.clauses.Writing.{triplet_at};
ghost use Rattle.building.specs.clauses.Moved.{moved, CopyAsks, Copied, LayAsks, Laid};

use notation::ceilings::{FLAGS, TRIPLETS_ROOM};
use notation::place::Connective;
use notation::triplets::{literal_of, write};

// A literal where `before` more triplets stand before it: that of a triplet moves, that of true or of a flag stays.
fn moved(literal: u16, before: usize) -> u16
    requires { (literal ≤ literal_ceiling) × (before ≤ connective_ceiling) }
    ensures { result ≡ moved before literal }
{
    if literal < (2 * FLAGS + 2) as u16 {
        return literal;
    }
    literal + (2 * before) as u16
}

// There are two copies for speed: from this many triplets on one that goes number by number costs less.
const MANY: usize = 6;

// Copies few triplets of a guard behind `before` others, kind, y and z at a step, since a kind wants no test.
fn copy_few(
    pool: &[u16; TRIPLETS_ROOM],
    off: usize,
    count: usize,
    out: &mut [u16; TRIPLETS_ROOM],
    before: usize,
)
    requires { CopyAsks pool.now off count out.old before }
    ensures { Copied pool.now off count out.old before out.new }
{
    for j in 0..count {
        let from = 3 * (off + j);
        let to = 3 * (before + j);
        out[to] = pool[from];
        let y = moved(pool[from + 1], before);
        out[to + 1] = y;
        let z = moved(pool[from + 2], before);
        out[to + 2] = z;
    }
}

// Copies many of them, a number at a step: a kind is tested too, but the machine copies several numbers at once.
fn copy_many(
    pool: &[u16; TRIPLETS_ROOM],
    off: usize,
    count: usize,
    out: &mut [u16; TRIPLETS_ROOM],
    before: usize,
)
    requires { CopyAsks pool.now off count out.old before }
    ensures { Copied pool.now off count out.old before out.new }
{
    for i in 0..3 * count {
        let number = moved(pool[3 * off + i], before);
        out[3 * before + i] = number;
    }
}

// Lays a guard behind `before` triplets; its literal there.
pub fn lay(
    pool: &[u16; TRIPLETS_ROOM],
    off: usize,
    count: usize,
    root: u16,
    out: &mut [u16; TRIPLETS_ROOM],
    before: usize,
) -> u16
    requires { LayAsks pool.now off count root out.old before }
    ensures { Laid pool.now off count root out.old before out.new result }
{
    if count < MANY {
        copy_few(pool, off, count, out, before);
    } else {
        copy_many(pool, off, count, out, before);
    }
    moved(root, before)
}

// Joins two guards that have been laid, `count` triplets in all; the literal of the whole.
pub fn tie(
    out: &mut [u16; TRIPLETS_ROOM],
    count: usize,
    sign: Connective,
    left: u16,
    right: u16,
) -> u16
    requires out_len { (length out.old ≡ 3 * connective_ceiling) × (count < connective_ceiling) }
    requires left_le_literal_ceiling { (left ≤ literal_ceiling) × (right ≤ literal_ceiling) }
    ensures { (result ≡ literal_of (sign_of sign) (triplet_variable (count + 1)))
        × (out.new ≡ triplet_at out.old count (triplet_of (sign_of sign) left right)) }
{
    write(out, count, sign, left, right);
    literal_of(sign, count)
}
