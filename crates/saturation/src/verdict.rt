// The verdict on a guard.

// The state of a gap has the first flag as its highest bit.
#[derive(Clone, Copy)]
pub enum Verdict {
    Covered,
    Gap(u64),
    Undecided,
}
