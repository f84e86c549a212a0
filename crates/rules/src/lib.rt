// The rules of an image at work: all rules' states side by side, and paths through its lexicon.

#![tactic(auto)]

pub mod paths;
pub mod states;
