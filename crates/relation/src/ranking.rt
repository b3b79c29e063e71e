// The rank of a relation.
ghost use Rattle.std.specs.Prelude.{◌≡◌};
ghost use Rattle.relation.specs.clauses.Classes.{entry, rank};

use crate::classes::Relation;

impl Relation {
    // 0 where contradictory, else 1 and the variables in use that stand for themselves.
    pub fn rank(&self) -> u16
        ensures { result ≡ rank self.now.size (entry self.now.of) }
    {
        if self.is_contradictory() {
            return 0;
        }
        let mut count: u16 = 1;
        for v in 0..self.size {
            count += u16::from(self.of[v] == 2 * v as u16);
        }
        count
    }
}
