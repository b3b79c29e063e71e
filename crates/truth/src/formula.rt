// A guard's triplets with its root and its flags: what has a value in each state.
ghost use Rattle.std.specs.Prelude.{◌≡◌};
ghost use Rattle.notation.specs.Triplets.{negation};
ghost use Rattle.truth.specs.clauses.Computed.{Triplets, root_value};
ghost use Rattle.truth.specs.clauses.OneProof.{triplets-prop};

use crate::values::{literal_value, set_flags, triplet_value};
use notation::ceilings::{FLAGS, VARIABLES};
use notation::triplets::negated;

// So many triplets, three numbers each, over so many flags, and the literal at which they are asked.
#[derive(Clone, Copy)]
pub struct Formula<'a> {
    pub triplets: &'a [u16],
    pub count: usize,
    pub root: u16,
    pub flags: usize,
    pub ghost proper: { Triplets flags triplets.now count root } by { triplets-prop flags triplets.now count root },
}

impl<'a> Formula<'a> {
    // The value in a state: of the triplets, one after the other, and then of the root.
    pub fn value(&self, state: u64) -> bool
        ensures { result ≡ root_value self.now.flags self.now.triplets.now self.now.count self.now.root state }
    {
        let mut values = [false; VARIABLES];
        set_flags(&mut values, self.flags, state);
        for j in 0..self.count {
            values[FLAGS + 1 + j] = triplet_value(&values, self.triplets, j);
        }
        literal_value(&values, self.root)
    }

    // The same triplets at the other sign of the root.
    pub fn negated(&self) -> Formula<'a>
        ensures triplets { result.triplets.now ≡ self.now.triplets.now }
        ensures count { result.count ≡ self.now.count }
        ensures root { result.root ≡ negation self.now.root }
        ensures flags { result.flags ≡ self.now.flags }
    {
        Formula {
            triplets: self.triplets,
            count: self.count,
            root: negated(self.root),
            flags: self.flags,
        }
    }
}
