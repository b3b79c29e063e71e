// One list in four orders: rest on each, and the naive reference once, on the order in which the list was made.
ghost use Rattle.std.specs.Prelude.{◌≡◌, true, ◌+◌, ◌*◌, ◌/◌, ◌<◌, ◌≤◌};
ghost use Rattle.steps.specs.clauses.Resting.{Readable};
ghost use Rattle.test_rest.specs.clauses.Known.{Known};

use crate::draw::draw;
use crate::lists::{LITERALS, List};
use crate::naive::{PAIRS, Pairs};
use crate::report::report;
use relation::classes::Relation;
use steps::rest::{FIRST, rest};

// The orders in which a list is tried.
pub const ORDERS: usize = 4;

// The two equalities a = b and c = d that rest starts from, between literals of the list as it was made.
#[derive(Clone, Copy)]
pub struct Start {
    pub a: usize,
    pub b: usize,
    pub c: usize,
    pub d: usize,
}

// The variable of a literal.
fn variable(l: u16) -> usize
    ensures { result ≡ l / 2 }
{
    (l / 2) as usize
}

// Whether the triplet at place j has a kind, and operands that are known before it.
fn is_known(kind: u16, y: u16, z: u16, j: usize) -> bool
    requires { j < 8 }
    ensures { result ≡ true → Known j kind y z }
{
    kind <= 1 && variable(y) < FIRST + j && variable(z) < FIRST + j
}

// Whether rest can take the list.
fn is_readable(list: &List) -> bool
    ensures { result ≡ true → Readable list.now.numbers list.now.count }
{
    for j in 0..list.count {
        if !is_known(
            list.numbers[3 * j],
            list.numbers[3 * j + 1],
            list.numbers[3 * j + 2],
            j,
        ) {
            return false;
        }
    }
    true
}

// What a literal of the list as it was made is called now; true where that is no variable in use.
fn called(list: &List, literal: usize) -> u16
    ensures { result / 2 < 25 + list.now.count }
{
    let l = list.names[literal % LITERALS];
    if variable(l) < FIRST + list.count {
        l
    } else {
        0
    }
}

impl Start {
    // The seed decides it.
    fn drawn(list: &List, seed: usize) -> Start {
        let literals = list.literals();
        Start {
            a: draw(seed, 101, literals),
            b: draw(seed, 102, literals),
            c: draw(seed, 103, literals),
            d: draw(seed, 104, literals),
        }
    }

    // Rest from there.
    fn rested(&self, list: &List) -> Relation
        requires { Readable list.now.numbers list.now.count }
    {
        let mut relation = Relation::fresh().over(FIRST + list.count);
        relation.join(called(list, self.a), called(list, self.b));
        relation.join(called(list, self.c), called(list, self.d));
        rest(&mut relation, &list.numbers, list.count);
        relation
    }

    // The same in the naive reference; none where it did not come to rest.
    fn rested_naively(&self, list: &List, seed: usize) -> Option<Pairs> {
        let mut pairs = Pairs::alone();
        pairs.add(self.a, self.b);
        pairs.add(self.c, self.d);
        if pairs.settle(list, seed) {
            Some(pairs)
        } else {
            None
        }
    }
}

// Whether the two differ at a pair of literals of the list as it was made.
fn differs(relation: &Relation, pairs: &Pairs, list: &List, pair: usize) -> bool {
    let (a, b) = (pair / 32, pair % 32);
    a < list.literals()
        && b < list.literals()
        && relation.equal(called(list, a), called(list, b)) != pairs.holds(a, b)
}

// The first pair at which the two differ on the list in its present order.
fn first_difference(start: &Start, pairs: &Pairs, list: &List) -> Option<usize>
    requires { Readable list.now.numbers list.now.count }
{
    let relation = start.rested(list);
    (0..PAIRS).find(|pair| differs(&relation, pairs, list, *pair))
}

// Whether rest and the naive reference differ on the list in its present order. Where none was told before, it tells.
fn is_wrong(
    rt: &impl Print,
    start: &Start,
    pairs: &Pairs,
    list: &List,
    seed: usize,
    order: usize,
    told: bool,
) -> bool {
    if !is_readable(list) {
        return true;
    }
    let Some(pair) = first_difference(start, pairs, list) else {
        return false;
    };
    if !told {
        report(
            rt,
            list,
            start,
            seed,
            order,
            pair,
            pairs.holds(pair / 32, pair % 32),
        );
    }
    true
}

// How many orders of the list of this seed have a pair on which the two differ.
pub fn disagreements(rt: &impl Print, seed: usize, told: bool) -> usize
    ensures { result ≤ 4 }
{
    let mut list = List::made(seed);
    let start = Start::drawn(&list, seed);
    let Some(pairs) = start.rested_naively(&list, seed) else {
        return ORDERS;
    };
    let mut wrong = 0;
    for order in 0..ORDERS {
        if is_wrong(rt, &start, &pairs, &list, seed, order, told || wrong > 0) {
            wrong += 1;
        }
        list.reorder(seed % 100000 * 4 + order);
    }
    wrong
}
