// Where a guard of a line stands.

// Its triplets stand in the pool behind `off` others; how many they are, and its root. Where its text starts and ends in the pack.
#[derive(Clone, Copy)]
pub struct GuardSpan {
    pub off: usize,
    pub count: usize,
    pub root: usize,
    pub text_start: usize,
    pub text_end: usize,
}

impl GuardSpan {
    // What a table holds where no guard has been noted.
    pub const NONE: GuardSpan = GuardSpan {
        off: 0,
        count: 0,
        root: 0,
        text_start: 0,
        text_end: 0,
    };
}
