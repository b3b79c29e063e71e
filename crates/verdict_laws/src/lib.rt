// Check's answer as the outline's trial gives it, and the services of one text together: laws on definitions, and no code.
#![tactic(auto)]
