// What two relations share, in place.
ghost use Rattle.std.specs.Prelude.{◌≡◌, ◌+◌, ◌*◌, ◌/◌, ◌<◌, ◌^◌, false, eqb};
ghost use Rattle.ground.specs.Choice.{choose};
ghost use Rattle.notation.specs.clauses.Writing.{signed};
ghost use Rattle.relation.specs.clauses.Classes.{variable_ceiling, Classes, entry};
ghost use Rattle.relation.specs.clauses.Keeping.{Lower, Shared, SharedLeader};

use crate::classes::Relation;
use notation::ceilings::VARIABLES;
use notation::triplets::flipped;

// Whether c and d, each negated where s is odd, are a and b.
fn agree(a: u16, b: u16, c: u16, d: u16, s: u16) -> bool
    requires { (c + s < 2 ^ 16) × (d + s < 2 ^ 16) }
    ensures { result ≡ choose (eqb (signed c s) a) (eqb (signed d s) b) false }
{
    flipped(c, s) == a && flipped(d, s) == b
}

// The literal of the lowest variable that equals variable v in both. It is not below either leader, so the search starts at
// the higher of the two.
fn shared_leader(of: &[u16; VARIABLES], other: &[u16; VARIABLES], v: usize) -> u16
    requires lower { Lower of.now }
    requires lower_2 { Lower other.now }
    requires v_lt_variable_ceiling { v < variable_ceiling }
    ensures { SharedLeader (entry of.now) (entry other.now) v result }
{
    let a = of[v];
    let b = other[v];
    let start = (a / 2).max(b / 2) as usize;
    for u in start..v {
        let c = of[u];
        let s = (a + c) % 2;
        if agree(a, b, c, other[u], s) {
            return 2 * u as u16 + s;
        }
    }
    2 * v as u16
}

// What two consistent relations share. From the highest variable down, each variable's search meets only entries that are
// still the old ones. It takes the arrays and not the relations: on the way the first array keeps none.
fn intersect(of: &mut [u16; VARIABLES], other: &[u16; VARIABLES], size: usize)
    requires classes { Classes size of.old }
    requires classes_2 { Classes size other.now }
    requires of_value { (entry of.old 0 ≡ 0) × (entry other.now 0 ≡ 0) }
    ensures { Shared size of.old other.now of.new }
{
    for v in (0..size).rev() {
        of[v] = shared_leader(&*of, other, v);
    }
}

impl Relation {
    // Leaves what both share. A contradictory relation holds all, so that what it shares with another is the other.
    pub fn share(&mut self, other: &Relation)
        requires { other.now.size ≡ self.old.size }
        ensures shared { Shared self.old.size self.old.of other.now.of self.new.of }
        ensures size { self.new.size ≡ self.old.size }
    {
        if other.is_contradictory() {
            return;
        }
        if self.is_contradictory() {
            *self = *other;
            return;
        }
        intersect(&mut self.of, &other.of, self.size);
    }
}
