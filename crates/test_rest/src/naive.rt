// The naive reference: a relation as a set of pairs of literals, and a step by the eight truth values, in any order until
// nothing is new. It counts variables without gaps: true, flags 1 to 4, then the triplets from 5 on.
ghost use Rattle.std.specs.Prelude.{◌<◌};

use crate::draw::draw;
use crate::lists::{List, TRIPLETS};
use steps::rest::FIRST;

pub const PAIRS: usize = 1024;

// The truth of x, of y and of z in the eight truth values, a bit for each.
const X: u8 = 240;

const Y: u8 = 204;

const Z: u8 = 170;

// For each pair of 32 literals, whether it is in the set.
#[derive(Drop)]
pub struct Pairs {
    held: [bool; PAIRS],
}

// A triplet x = (y implies z), or x = (y same as z), by its literals.
#[derive(Clone, Copy)]
struct Triplet {
    kind: u16,
    x: usize,
    y: usize,
    z: usize,
}

// The eight names of a step are true, false, x, not x, y, not y, z, not z: the truth of one.
fn column(name: usize) -> u8 {
    let truth = match name / 2 {
        1 => X,
        2 => Y,
        3 => Z,
        _ => 255,
    };
    if name % 2 == 1 { !truth } else { truth }
}

// The truth values in which two names differ.
fn apart(names: usize) -> u8 {
    column(names / 8) ^ column(names % 8)
}

// The literal as it is counted here: triplets are numbered from the variable after the flags on in a list, and from 5 on here.
fn counted(l: u16) -> usize {
    let literal = usize::from(l);
    if literal < 2 * FIRST {
        literal
    } else {
        literal - 2 * (FIRST - 5)
    }
}

// The i-th of the eight places in an order that the seed decides.
fn shuffled(seed: usize, i: usize) -> usize
    ensures { result < 8 }
{
    let turned = (i ^ draw(seed, 201, TRIPLETS)) % TRIPLETS;
    let moved = (turned + draw(seed, 202, TRIPLETS)) % TRIPLETS;
    (moved ^ draw(seed, 203, TRIPLETS)) % TRIPLETS
}

impl Triplet {
    // The triplet at a place of the list.
    fn at(list: &List, place: usize) -> Triplet
        requires { place < 8 }
    {
        Triplet {
            kind: list.numbers[3 * place],
            x: 2 * (5 + place),
            y: counted(list.numbers[3 * place + 1]),
            z: counted(list.numbers[3 * place + 2]),
        }
    }

    // The literal that a name stands for.
    fn literal(&self, name: usize) -> usize {
        let base = match name / 2 {
            1 => self.x,
            2 => self.y,
            3 => self.z,
            _ => 0,
        };
        base ^ (name % 2)
    }

    // The truth values that satisfy it.
    fn satisfying(&self) -> u8 {
        if self.kind == 0 {
            !(X ^ (!Y | Z))
        } else {
            X ^ Y ^ Z
        }
    }
}

impl Pairs {
    // Only l = l.
    pub fn alone() -> Pairs {
        let mut pairs = Pairs {
            held: [false; PAIRS],
        };
        for l in 0..32 {
            pairs.put(l, l);
        }
        pairs
    }

    // Whether the pair is in the set. Where true equals false, each pair is.
    pub fn holds(&self, a: usize, b: usize) -> bool {
        self.held[1] || self.held[32 * (a % 32) + b % 32]
    }

    fn put(&mut self, a: usize, b: usize) {
        self.held[32 * (a % 32) + b % 32] = true;
    }

    // Where p equals a and q equals b: now p equals q, and the same of their negations.
    fn meet(&mut self, a: usize, b: usize, p: usize, q: usize) {
        if !self.holds(p, a) || !self.holds(q, b) {
            return;
        }
        self.put(p, q);
        self.put(q, p);
        self.put(p ^ 1, q ^ 1);
        self.put(q ^ 1, p ^ 1);
    }

    // Adds a = b with all that follows; answers whether it was new.
    pub fn add(&mut self, a: usize, b: usize) -> bool {
        if self.holds(a, b) {
            return false;
        }
        if self.holds(a, b ^ 1) {
            self.put(0, 1);
            return true;
        }
        for pair in 0..PAIRS {
            self.meet(a, b, pair / 32, pair % 32);
        }
        true
    }

    // Whether the set has two names as a pair.
    fn names(&self, triplet: &Triplet, names: usize) -> bool {
        self.holds(triplet.literal(names / 8), triplet.literal(names % 8))
    }

    // The truth values that satisfy the triplet and the set.
    fn fitting(&self, triplet: &Triplet) -> u8 {
        let mut left = triplet.satisfying();
        for names in 0..64 {
            if self.names(triplet, names) {
                left &= !apart(names);
            }
        }
        left
    }

    // One step: adds each equality of two names that holds in each of the truth values. Answers whether anything was new.
    fn step(&mut self, triplet: &Triplet) -> bool {
        let fit = self.fitting(triplet);
        let mut news = false;
        for names in 0..64 {
            if fit & apart(names) == 0 {
                news |= self.add(triplet.literal(names / 8), triplet.literal(names % 8));
            }
        }
        news
    }

    // A step on each triplet, in some order; answers whether anything was new.
    fn round(&mut self, list: &List, seed: usize) -> bool {
        let mut news = false;
        for i in 0..TRIPLETS {
            let place = shuffled(seed, i);
            if place < list.count {
                news |= self.step(&Triplet::at(list, place));
            }
        }
        news
    }

    // Rounds until one adds nothing. Each but the last joins two classes at least, so that 20 are enough; answers whether they were.
    pub fn settle(&mut self, list: &List, seed: usize) -> bool {
        for turn in 0..20 {
            if !self.round(list, seed % 1000 * 20 + turn) {
                return true;
            }
        }
        false
    }
}
