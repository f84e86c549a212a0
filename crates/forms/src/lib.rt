// The index of forms of an accepted image, for callers that ask many words of one image: which letters pair, which lexicons are worth looking ahead in, and each
// lexicon's entries in an order that puts like beginnings together. Here its parts, each filled by itself.

#![tactic(auto)]

pub mod pairs;
pub mod slot;
pub mod slots;

// Where each part of the index begins, and where the last ends; rows of letters stand first.
pub const FLAGS_START: usize = 30976;

pub const ORDER_START: usize = 31104;

pub const SHARED_START: usize = 31232;

pub const SLOTS_START: usize = 34048;

pub const SKIPS_START: usize = 79104;

pub const FORMS_END: usize = 146688;
