// Trials of the judge of written rules, computed from the definitions; no code.

#![tactic(auto)]
