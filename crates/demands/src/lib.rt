// Theorems alone: the three demands, over the contracts of the public calls.

#![tactic(auto)]
