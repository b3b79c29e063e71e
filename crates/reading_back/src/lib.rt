// A guard that is written as text is read back as itself: laws on the definitions of `notation`, and no code.
#![tactic(auto)]
