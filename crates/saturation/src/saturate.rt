// Saturation at a depth. A split saturates both sides one less deep and keeps what they share.
ghost use Rattle.std.specs.Prelude.{◌≡◌, ◌≤◌};
ghost use Rattle.notation.specs.Ceilings.{flag_ceiling};
ghost use Rattle.truth.specs.clauses.Computed.{Triplets};
ghost use Rattle.truth.specs.clauses.OneProof.{triplets-prop};
ghost use Rattle.relation.specs.clauses.Classes.{kept};
ghost use Rattle.steps.specs.Rest.{NoStepEnlarges};
ghost use Rattle.steps.specs.clauses.Resting.{in_use, triplets_at};
ghost use Rattle.saturation.specs.Saturation.{Flags};
ghost use Rattle.saturation.specs.clauses.Saturating.{SaturatedTo, Divided, Swept};

use relation::classes::Relation;
use steps::rest::rest;

// What a relation is saturated by: so many triplets, three numbers each, and splits on so many flags.
#[derive(Clone, Copy)]
pub struct Saturator<'a> {
    pub triplets: &'a [u16],
    pub count: usize,
    pub flags: usize,
    // Over any number of flags and with any root, that is, over as many as there can be, with the root true.
    pub ghost readable: { Triplets flag_ceiling triplets.now count 0 } by { triplets-prop flag_ceiling triplets.now count 0 },
    pub ghost few: { flags ≤ flag_ceiling },
}

impl<'a> Saturator<'a> {
    // Splits on a flag that is not tied, false side first. The true side is the relation itself: what both sides share is above
    // what it was, so that one copy is enough.
    #[cycle(saturate_split_sweep)]
    fn split(&self, relation: &mut Relation, flag: usize, below: u64)
        requires size { relation.old.size ≡ in_use self.now.count }
        requires no_step_enlarges { NoStepEnlarges (triplets_at self.now.triplets.now self.now.count) (kept relation.old.of) }
        requires flags { Flags self.now.flags flag }
        ensures divided { Divided self.now.triplets.now self.now.count self.now.flags below flag relation.old.of relation.new.of }
        ensures size { relation.new.size ≡ relation.old.size }
    {
        if relation.is_tied(flag) {
            return;
        }
        let on = 2 * flag as u16;
        let before = relation.rank();
        let mut off = *relation;
        off.join(on + 1, 0);
        self.saturate(&mut off, below);
        relation.join(on, 0);
        self.saturate(relation, below);
        relation.share(&off);
        if before <= relation.rank() {
            return;
        }
        rest(relation, self.triplets, self.count);
    }

    // A split on each flag in turn.
    #[cycle(saturate_split_sweep)]
    fn sweep(&self, relation: &mut Relation, below: u64)
        requires size { relation.old.size ≡ in_use self.now.count }
        requires no_step_enlarges { NoStepEnlarges (triplets_at self.now.triplets.now self.now.count) (kept relation.old.of) }
        ensures swept { Swept self.now.triplets.now self.now.count self.now.flags below relation.old.of relation.new.of }
        ensures size { relation.new.size ≡ relation.old.size }
    {
        for flag in 1..=self.flags {
            self.split(relation, flag, below);
        }
    }

    // Passes over the flags until one changes nothing. Each that changes something makes the rank fall.
    #[cycle(saturate_split_sweep)]
    pub fn saturate(&self, relation: &mut Relation, depth: u64)
        requires { relation.old.size ≡ in_use self.now.count }
        ensures saturated { SaturatedTo self.now.triplets.now self.now.count self.now.flags depth relation.old.of relation.new.of }
        ensures size { relation.new.size ≡ relation.old.size }
    {
        rest(relation, self.triplets, self.count);
        if depth == 0 {
            return;
        }
        let mut left = relation.rank();
        let mut was = left + 1;
        while left < was {
            was = left;
            self.sweep(relation, depth - 1);
            left = relation.rank();
        }
    }
}
