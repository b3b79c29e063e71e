// Joining two classes, in place: no second array is held.
ghost use Rattle.std.specs.Prelude.{◌≡◌, ◌+◌, ◌/◌, ◌<◌, ◌^◌};
ghost use Rattle.relation.specs.clauses.Classes.{Classes, moved, entry};
ghost use Rattle.relation.specs.clauses.Keeping.{Joined, Leaders};

use crate::classes::Relation;
use notation::ceilings::VARIABLES;
use notation::triplets::flipped;

// The literal w once hi has become lo.
fn moved_to(w: u16, lo: u16, hi: u16) -> u16
    requires { w + lo + hi < 2 ^ 16 }
    ensures { result ≡ moved lo hi w }
{
    if w / 2 == hi / 2 {
        return flipped(lo, w + hi);
    }
    w
}

// Joins the classes of two leaders, of which lo is the lower. No variable below that of hi leads to hi. It takes the array and
// not the relation: on the way the array keeps none.
fn merge(of: &mut [u16; VARIABLES], size: usize, lo: u16, hi: u16)
    requires classes { Classes size of.old }
    requires leaders { Leaders size (entry of.old) lo hi }
    ensures { Joined size of.old lo hi of.new }
{
    for v in (hi / 2) as usize..size {
        of[v] = moved_to(of[v], lo, hi);
    }
}

impl Relation {
    // Makes l and m equal. Where they are already, or all are, nothing is written.
    pub fn join(&mut self, l: u16, m: u16)
        requires { (l / 2 < self.old.size) × (m / 2 < self.old.size) }
        ensures joined { Joined self.old.size self.old.of l m self.new.of }
        ensures size { self.new.size ≡ self.old.size }
    {
        if self.is_contradictory() {
            return;
        }
        let a = self.lead(l);
        let b = self.lead(m);
        if a == b {
            return;
        }
        if a / 2 == b / 2 {
            self.of[0] = 1;
            return;
        }
        if a / 2 < b / 2 {
            merge(&mut self.of, self.size, a, b);
            return;
        }
        merge(&mut self.of, self.size, b, a);
    }
}
