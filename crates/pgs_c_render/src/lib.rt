// The call of the C interface for painting. `pgs_c` exports it.
#![tactic(auto)]

pub mod render;
