// What every text that is read says: laws on the definitions of `notation` and `reading`, and no code.
#![tactic(auto)]
