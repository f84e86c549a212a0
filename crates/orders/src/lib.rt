// Orders by which the index of forms of an image is filled: of lexicons, and of the entries of each lexicon. They are orders of speed alone: what is promised is that
// nothing is lost.

#![tactic(auto)]

pub mod keys;
pub mod lexicons;
