// Definitions and theorems alone: what the other crates' contracts cite.

#![tactic(auto)]
