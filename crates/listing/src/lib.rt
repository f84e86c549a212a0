// What a search for readings goes by: what is asked of the path and of the word, the levels, the entries that may open, a pair taken, the end.

#![tactic(auto)]

pub mod asked;
pub mod level;
pub mod opening;
pub mod pairing;
pub mod place;
