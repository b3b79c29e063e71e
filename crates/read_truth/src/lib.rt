// What parse leaves behind, as triplets with a value: laws that the services above reading share, and no code.
#![tactic(auto)]
