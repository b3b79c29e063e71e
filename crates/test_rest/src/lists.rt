// Random lists of at most eight triplets over four flags, and the same list in other orders.
//
// A triplet's variable is its place, so another order renames variables. Beside the triplets stands, for each literal of the list
// as it was made, what it is called now.
ghost use Rattle.std.specs.Prelude.{◌≡◌, ◌+◌, ◌*◌, ◌≤◌, ◌<◌};

use crate::draw::draw;
use std::array;
use steps::rest::FIRST;

pub const TRIPLETS: usize = 8;

pub const NUMBERS: usize = 3 * TRIPLETS;

// Literals of a list as it was made, and some that it does not have.
pub const LITERALS: usize = 32;

#[derive(Clone, Copy)]
pub struct List {
    // Kind, y and z of each triplet.
    pub numbers: [u16; NUMBERS],
    pub names: [u16; LITERALS],
    pub count: usize,
    pub ghost few: { count ≤ 8 },
}

// The literal of a list, from one that is counted without gaps: true, flags 1 to 4, then the triplets.
fn named(literal: usize) -> u16
    requires { literal < 32 }
{
    if literal < 10 {
        literal as u16
    } else {
        (literal + 2 * (FIRST - 5)) as u16
    }
}

// The number at a place: a kind, or an operand that is known before its triplet.
fn number_at(seed: usize, place: usize) -> u16
    requires { place < 24 }
{
    if place % 3 == 0 {
        draw(seed, place, 2) as u16
    } else {
        named(draw(seed, place, 2 * (5 + place / 3)))
    }
}

// The literal l once the variables v and v + 1 have changed places.
fn exchanged(l: u16, v: u16) -> u16
    requires { v < 1000 }
{
    if l / 2 == v {
        l + 2
    } else if l / 2 == v + 1 {
        l - 2
    } else {
        l
    }
}

fn rename(literals: &mut [u16], v: u16)
    requires { v < 1000 }
{
    for l in literals.iter_mut() {
        *l = exchanged(*l, v);
    }
}

impl List {
    pub fn made(seed: usize) -> List {
        List {
            numbers: array::from_fn(|place| number_at(seed, place)),
            names: array::from_fn(named),
            count: 1 + seed % TRIPLETS,
        }
    }

    // How many literals it had as it was made.
    pub fn literals(&self) -> usize
        ensures { result ≡ 10 + 2 * self.now.count }
    {
        10 + 2 * self.count
    }

    // Exchanges the triplet at a place with the next one, unless that is an operand of it.
    fn exchange(&mut self, place: usize)
        requires { place < 7 }
    {
        let v = (FIRST + place) as u16;
        let next = 3 * place + 3;
        if place + 1 >= self.count
            || self.numbers[next + 1] / 2 == v
            || self.numbers[next + 2] / 2 == v
        {
            return;
        }
        for i in 3 * place..next {
            self.numbers.swap(i, i + 3);
        }
        rename(&mut self.numbers, v);
        rename(&mut self.names, v);
    }

    // Exchanges some triplets, which the seed decides.
    pub fn reorder(&mut self, seed: usize) {
        for i in 0..16 {
            self.exchange(draw(seed, 300 + i, 7));
        }
    }
}
