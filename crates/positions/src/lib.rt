// Sets of positions in a word: over a letter and over insertions, and letter after letter down a form.

#![tactic(auto)]

pub mod sets;
pub mod stack;
