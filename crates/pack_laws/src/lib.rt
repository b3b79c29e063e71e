// What every pack that is read says: its refusal is the leftmost of all its faults, and examples that compute. Laws, and no code.
#![tactic(auto)]
