// The literals that wait for what their `>` leads to.
ghost use Rattle.std.specs.Prelude.{◌≡◌, ◌≤◌, ◌<◌, length};
ghost use Rattle.notation.specs.Ceilings.{connective_ceiling};
ghost use Rattle.operands.specs.clauses.Steps.{Pushed, Popped};

use notation::ceilings::CONNECTIVES;

// The first `count` literals wait, the last on top.
#[derive(Clone, Copy)]
pub struct Stack {
    pub literals: [u16; CONNECTIVES],
    pub count: usize,
}

impl Stack {
    // None waits.
    pub fn none() -> Stack
        ensures none { result.count ≡ 0 }
        ensures table { length result.literals ≡ connective_ceiling }
    {
        Stack {
            literals: [0; CONNECTIVES],
            count: 0,
        }
    }

    // One literal more waits.
    pub fn push(&mut self, literal: u16)
        requires table { length self.old.literals ≡ connective_ceiling }
        requires room { self.old.count < connective_ceiling }
        ensures { Pushed literal self.old self.new }
    {
        self.literals[self.count] = literal;
        self.count += 1;
    }

    // The literal that came last waits no longer.
    pub fn pop(&mut self) -> u16
        requires table { length self.old.literals ≡ connective_ceiling }
        requires some { (0 < self.old.count) × (self.old.count ≤ connective_ceiling) }
        ensures { Popped self.old result self.new }
    {
        let top = self.count - 1;
        self.count = top;
        self.literals[top]
    }
}
