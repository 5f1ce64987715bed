// The calls of the C interface that write a segment without a list, or the segments of a stream. `pgs_c` exports them.
#![tactic(auto)]

pub mod writing;
