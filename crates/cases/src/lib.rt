// Reads the cases of the fixed list (oracle/list/README.md has their form) and keeps the tally of a run.
#![tactic(auto)]

pub mod answer;
pub mod tally;
