// What may come next from a place of the search: the next letter and its candidate pairs, the entries that can start, the pairs that are forced.

#![tactic(auto)]

pub mod forced;
pub mod here;
pub mod starts;
