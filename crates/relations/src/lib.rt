// Relations of places in a sequence of pairs: sets of places, and a set for each place.

#![tactic(auto)]

pub mod places;
pub mod tables;
