// Text in: the lines of a text.
#![tactic(auto)]

pub mod reading;
