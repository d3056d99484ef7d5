// Shrink: the rows of the shrunk table.
#![tactic(auto)]

pub mod emit;
