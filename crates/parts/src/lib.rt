// A reader of the cases of the fixed list, and the parts of slices.
#![tactic(auto)]

pub mod case;
pub mod number;
pub mod slice;
