// The calls of the C interface for display sets, their objects and their cards. `pgs_c` exports them.
#![tactic(auto)]

pub mod cards;
pub mod sets;
