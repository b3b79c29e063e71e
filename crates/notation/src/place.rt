// Where the reader stands. The place is lent from function to function.
ghost use Rattle.std.specs.Prelude.{◌≡◌};
ghost use Rattle.notation.specs.clauses.Place.{before, RefusedOnly};

use crate::refusal::{Reason, Refusal, Refused};

// A two-sided connective: `=`, `>`, `|`, `&`.
#[derive(Clone, Copy, PartialEq)]
pub enum Connective {
    Same,
    Implies,
    Or,
    And,
}

// What a token is. The bytes of a code are those of its place in the text.
#[derive(Clone, Copy)]
pub enum Kind {
    End,
    Code,
    Truth(bool),
    Bang,
    Sign(Connective),
    Opening,
    Closing,
}

// A token: what it is, its first byte's place and the place after its last.
#[derive(Clone, Copy)]
pub struct Token {
    pub kind: Kind,
    pub start: usize,
    pub next: usize,
}

// The token ahead; how many flags, signs and triplets lie behind; and the refusal, where a function answered that the reader was refused.
#[derive(Clone, Copy)]
pub struct Place {
    pub token: Token,
    pub flags: usize,
    pub signs: usize,
    pub count: usize,
    pub refusal: Refusal,
}

impl Place {
    // Before the first token from `from` on, where `flags` codes have been seen before.
    pub fn before(from: usize, flags: usize) -> Place
        ensures { result ≡ before from flags }
    {
        let token = Token {
            kind: Kind::End,
            start: 0,
            next: from,
        };
        // Nothing was refused yet, so it stands for nothing.
        let refusal = Refusal {
            reason: Reason::OutOfPlace,
            place: 0,
        };
        Place {
            token,
            flags,
            signs: 0,
            count: 0,
            refusal,
        }
    }

    // Refused for this reason at this place of the text.
    pub fn refuse(&mut self, reason: Reason, place: usize) -> Refused
        ensures { RefusedOnly reason place self.old self.new }
    {
        self.refusal = Refusal { reason, place };
        Refused
    }

    // Refused for this reason at the token ahead.
    pub fn refuse_ahead(&mut self, reason: Reason) -> Refused
        ensures { RefusedOnly reason self.old.token.start self.old self.new }
    {
        let start = self.token.start;
        self.refuse(reason, start)
    }
}
