// Rest: steps on the triplets until none enlarges the relation.
ghost use Rattle.std.specs.Prelude.{◌≡◌, ◌+◌, ◌*◌, ◌<◌};
ghost use Rattle.steps.specs.clauses.Resting.{in_use, Passed, Rested, Readable};

use crate::step::Triplet;
use notation::ceilings::FLAGS;
use relation::classes::Relation;

// The variable of the first triplet.
pub const FIRST: usize = 1 + FLAGS;

// A step on each triplet in turn. A contradictory relation holds all: it ends the pass.
fn pass(relation: &mut Relation, triplets: &[u16], count: usize)
    requires readable { Readable triplets.now count }
    requires size { relation.old.size ≡ in_use count }
    ensures passed { Passed triplets.now count relation.old.of relation.new.of }
    ensures size { relation.new.size ≡ relation.old.size }
{
    for j in 0..count {
        if relation.is_contradictory() {
            return;
        }
        let triplet = Triplet {
            kind: triplets[3 * j] as usize,
            x: 2 * (FIRST + j) as u16,
            y: triplets[3 * j + 1],
            z: triplets[3 * j + 2],
        };
        triplet.step(relation);
    }
}

// Passes until one changes nothing. Each that changes something makes the rank fall.
pub fn rest(relation: &mut Relation, triplets: &[u16], count: usize)
    requires readable { Readable triplets.now count }
    requires size { relation.old.size ≡ in_use count }
    ensures rested { Rested triplets.now count relation.old.of relation.new.of }
    ensures size { relation.new.size ≡ relation.old.size }
{
    let mut left = relation.rank();
    let mut was = left + 1;
    while left < was {
        was = left;
        pass(relation, triplets, count);
        left = relation.rank();
    }
}
