// What every answer of why says: the kept flags alone force a gap, and none of them can be dropped. Laws, and no code.
#![tactic(auto)]
