// Packs each answer into one number: kind x 2^32 + payload.
ghost use Rattle.std.specs.Prelude.{◌≡◌, ℕ, ◌^◌, ◌≤◌, ◌<◌};
ghost use Rattle.importer.specs.Packed.{packed, packed_answer, packed_refusal, packed_verdict, packed_value, packed_found, packed_guard, packed_stretch};
ghost use Rattle.importer.specs.clauses.Fits.{AnswerFits, RefusalFits, VerdictFits, ValueFits, FoundFits, GuardFits, StretchFits};

use gaps::writing::Found;
use notation::refusal::Refusal;
use reading::name::Stretch;
use reading::parse::Guard;
use saturation::verdict::Verdict;

// What a kind counts, 2^32.
const KIND: u64 = 4294967296;

// What the upper of two parts of a payload counts, 2^16.
const UPPER: u64 = 65536;

// What the flags count in the payload of read, 2^24.
const FLAGS: u64 = 16777216;

// What one number can hold, where it is within its ceilings.
pub trait Packed {
    ghost number: { Self → ℕ };

    ghost fits: { Self → Type 0 };

    fn packed(self) -> u64
        requires { fits self }
        ensures { result ≡ number self };
}

// A kind with its payload.
fn number_of(kind: u64, payload: u64) -> u64
    requires kind_bound { kind ≤ 3 }
    requires payload_bound { payload < 2 ^ 32 }
    ensures { result ≡ packed kind payload }
{
    kind * KIND + payload
}

// Refused is kind 3 in every entry.
impl Packed for Refusal {
    ghost number = { packed_refusal };

    ghost fits = { RefusalFits };

    fn packed(self) -> u64 {
        number_of(3, self.reason.number() as u64 * UPPER + self.place as u64)
    }
}

// The answer of each entry: what its service answers, or a refusal.
impl<T: Packed> Packed for Result<T, Refusal> {
    ghost number = { packed_answer T.number };

    ghost fits = { AnswerFits T.fits };

    fn packed(self) -> u64 {
        match self {
            Ok(answer) => answer.packed(),
            Err(refusal) => refusal.packed(),
        }
    }
}

// Of check.
impl Packed for Verdict {
    ghost number = { packed_verdict };

    ghost fits = { VerdictFits };

    fn packed(self) -> u64 {
        match self {
            Verdict::Covered => number_of(0, 0),
            Verdict::Gap(state) => number_of(1, state),
            Verdict::Undecided => number_of(2, 0),
        }
    }
}

// Of evaluate.
impl Packed for bool {
    ghost number = { packed_value };

    ghost fits = { ValueFits };

    fn packed(self) -> u64 {
        self as u64
    }
}

// Of list.
impl Packed for Found {
    ghost number = { packed_found };

    ghost fits = { FoundFits };

    fn packed(self) -> u64 {
        match self {
            Found::Done(written) => number_of(0, written as u64),
            Found::More { written: _, next } => number_of(1, next),
        }
    }
}

// Of read.
impl Packed for Guard {
    ghost number = { packed_guard };

    ghost fits = { GuardFits };

    fn packed(self) -> u64 {
        number_of(
            0,
            self.flags as u64 * FLAGS + self.count as u64 * UPPER + self.root as u64,
        )
    }
}

// Of name.
impl Packed for Stretch {
    ghost number = { packed_stretch };

    ghost fits = { StretchFits };

    fn packed(self) -> u64 {
        number_of(0, self.start as u64 * UPPER + self.len as u64)
    }
}
