// Theorems alone: the trials of both documents, computed from the definitions of the model.

#![tactic(auto)]
