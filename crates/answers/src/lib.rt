// What the line program prints, as the input comes in, over an image that was checked, and where accepted indexed, once a run.

#![tactic(auto)]

pub mod input;
mod line;
mod room;
pub mod run;
