// A relation of literals, and what is read from it.
//
// Whether the relation is contradictory is kept in the array too: variable 0, true, then leads to literal 1, false.
ghost use Rattle.std.specs.Prelude.{◌≡◌, ◌+◌, ◌*◌, ◌/◌, ◌≤◌, ◌<◌, ◌^◌};
ghost use Rattle.relation.specs.clauses.Classes.{variable_ceiling, Classes, entry, kept};
ghost use Rattle.relation.specs.clauses.Keeping.{Fresh, Led, tied};

use notation::ceilings::VARIABLES;
use notation::triplets::flipped;

// Each variable with the literal of the lowest variable of its class.
#[derive(Clone, Copy)]
pub struct Relation {
    pub of: [u16; VARIABLES],
    // The variables in use. Each from here on stands for itself.
    pub size: usize,
    pub ghost classes: { Classes size of },
}

// Each variable's own literal.
fn own_literals() -> [u16; VARIABLES]
    ensures { Fresh result }
{
    let mut of = [0u16; VARIABLES];
    for v in 0..VARIABLES {
        of[v] = 2 * v as u16;
    }
    of
}

impl Relation {
    // Only l = l. No variable is in use.
    pub fn fresh() -> Self
        ensures only { Fresh result.of }
        ensures none { result.size ≡ 0 }
    {
        Relation {
            of: own_literals(),
            size: 0,
        }
    }

    // The same relation, with more variables in use.
    pub fn over(mut self, size: usize) -> Self
        requires { (self.size ≤ size) × (size ≤ variable_ceiling) }
        ensures same { result.of ≡ self.of }
        ensures in_use { result.size ≡ size }
    {
        self.size = size;
        self
    }

    // Where a literal leads.
    pub fn lead(&self, l: u16) -> u16
        requires { l / 2 < variable_ceiling }
        ensures { Led (entry self.now.of) l result }
    {
        flipped(self.of[(l / 2) as usize], l)
    }

    // Whether all literals are equal.
    pub fn is_contradictory(&self) -> bool
        ensures { result ≡ kept self.now.of 0 1 }
    {
        self.of[0] == 1
    }

    // Whether two literals are equal.
    pub fn equal(&self, l: u16, m: u16) -> bool
        requires { (l / 2 < variable_ceiling) × (m / 2 < variable_ceiling) }
        ensures { result ≡ kept self.now.of l m }
    {
        self.is_contradictory() || self.lead(l) == self.lead(m)
    }

    // Whether a variable is tied to true or false.
    pub fn is_tied(&self, v: usize) -> bool
        requires { v < variable_ceiling }
        ensures { result ≡ tied (kept self.now.of) v }
    {
        self.is_contradictory() || self.of[v] < 2
    }
}
