// Shrink: the classes of states that become one.
#![tactic(auto)]

pub mod classes;
