// What the answers for a line pack mean to its tester, and that there is one for every pack and depth: laws, and no code.
#![tactic(auto)]
