// Shrink: where each state's rows begin, and which states become one.
#![tactic(auto)]

pub mod faces;
pub mod index;
pub mod same;
