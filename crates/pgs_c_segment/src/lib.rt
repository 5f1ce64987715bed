// The calls of the C interface that read a stream or a body. `pgs_c` exports them.
#![tactic(auto)]

pub mod segments;
