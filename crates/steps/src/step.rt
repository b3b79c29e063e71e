// One step on a triplet, in place: where it adds nothing, nothing is written.
ghost use Rattle.std.specs.Prelude.{◌≡◌, true, ◌+◌, ◌*◌, ◌/◌, ◌%◌, ◌<◌, ◌≤◌, ◌^◌, get_or};
ghost use Rattle.steps.specs.Step.{own-z, literal_at};
ghost use Rattle.steps.specs.Table.{z_names};
ghost use Rattle.steps.specs.clauses.Leading.{x_place, y_place, z_place, Patterned};
ghost use Rattle.steps.specs.clauses.Resting.{Usable, Named, Stepped};

use crate::after;
use notation::triplets::flipped;
use relation::classes::Relation;

// A triplet x = (y implies z), of kind 0, or x = (y same as z), of kind 1, by its literals. The kind stays the number that stands
// in the list of triplets and tells the half of the table.
#[derive(Clone, Copy)]
pub struct Triplet {
    pub kind: usize,
    pub x: u16,
    pub y: u16,
    pub z: u16,
}

// The entry for contradiction.
const CONTRADICTORY: usize = 255;

// The name of x: false, true or its own.
fn x_place(a: u16) -> u16
    ensures { result ≡ x_place a }
{
    if a / 2 == 0 {
        return (a + 1) % 2;
    }
    2
}

// The name of y: false, true, x, not x or its own.
fn y_place(a: u16, b: u16) -> u16
    requires { a + b < 2 ^ 16 }
    ensures { result ≡ y_place a b }
{
    if b / 2 == 0 {
        return (b + 1) % 2;
    }
    if b / 2 == a / 2 {
        return 2 + (b + a) % 2;
    }
    4
}

// The name of z: false, true, x, not x, y, not y or its own.
fn z_place(a: u16, b: u16, c: u16) -> u16
    requires { a + b + c < 2 ^ 16 }
    ensures { result ≡ z_place a b c }
{
    if c / 2 == 0 {
        return (c + 1) % 2;
    }
    if c / 2 == a / 2 {
        return 2 + (c + a) % 2;
    }
    if c / 2 == b / 2 {
        return 4 + (c + b) % 2;
    }
    6
}

// Whether no two of true, x, y and z lead to one variable: then nothing is known, and a step adds nothing.
fn apart(a: u16, b: u16, c: u16) -> bool
    ensures { result ≡ true → Patterned a b c 104 }
{
    if a / 2 == 0 || b / 2 == 0 || c / 2 == 0 {
        return false;
    }
    b / 2 != a / 2 && c / 2 != a / 2 && c / 2 != b / 2
}

// The pattern of x, y and z, which lead to a, b and c.
fn pattern_of(a: u16, b: u16, c: u16) -> usize
    requires { a + b + c < 2 ^ 16 }
    ensures { Patterned a b c result }
{
    let x = x_place(a);
    let y = y_place(a, b);
    let z = z_place(a, b, c);
    (35 * x + 7 * y + z) as usize
}

impl Triplet {
    // The literal that a place in the list of names stands for. The names of x and y are the first of those of z.
    fn literal_at(self, place: usize) -> u16
        requires place_bound { place ≤ 6 }
        requires x_bound { (self.x + 1 < 2 ^ 16) × (self.y + 1 < 2 ^ 16) }
        ensures { result ≡ literal_at self.x self.y self.z (get_or z_names place own-z) }
    {
        match place {
            0 => 1,
            1 => 0,
            2 => self.x,
            3 => flipped(self.x, 1),
            4 => self.y,
            5 => flipped(self.y, 1),
            _ => self.z,
        }
    }

    // Joins x, y and z with what the pattern names them.
    fn hold(self, relation: &mut Relation, pattern: usize)
        requires pattern_bound { pattern < 105 }
        requires x_bound { (self.x / 2 < relation.old.size) × (self.y / 2 < relation.old.size) × (self.z / 2 < relation.old.size) }
        ensures named { Named relation.old.size pattern self.x self.y self.z relation.old.of relation.new.of }
        ensures size { relation.new.size ≡ relation.old.size }
    {
        let p = self.literal_at(pattern / 35);
        relation.join(self.x, p);
        let q = self.literal_at(pattern / 7 % 5);
        relation.join(self.y, q);
        let r = self.literal_at(pattern % 7);
        relation.join(self.z, r);
    }

    // A step on it.
    pub fn step(self, relation: &mut Relation)
        requires { Usable relation.old.size self.kind self.x self.y self.z }
        ensures stepped { Stepped relation.old.size self.kind self.x self.y self.z relation.old.of relation.new.of }
        ensures size { relation.new.size ≡ relation.old.size }
    {
        let a = relation.lead(self.x);
        let b = relation.lead(self.y);
        let c = relation.lead(self.z);
        if apart(a, b, c) {
            return;
        }
        let before = pattern_of(a, b, c);
        let next = after(self.kind, before) as usize;
        if next == before {
            return;
        }
        if next == CONTRADICTORY {
            relation.join(0, 1);
            return;
        }
        self.hold(relation, next);
    }
}
