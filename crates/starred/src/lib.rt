// The outline's starred examples as one proved table, and two slips that steps must not make: laws, and no code.
#![tactic(auto)]
