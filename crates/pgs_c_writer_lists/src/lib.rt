// The calls of the C interface that write a segment with a list. `pgs_c` exports them.
#![tactic(auto)]

pub mod lists;
