// Theorems alone: images without sets are what they were before there were any.

#![tactic(auto)]
