// The display sets of a stream (01, module 6).
#![tactic(auto)]

pub mod display_sets;
pub mod grouping;
pub mod open_set;
pub mod segments;
pub mod set;
