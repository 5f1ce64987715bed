// The calls of the C interface for bitmaps, colours and palettes. `pgs_c` exports them.
#![tactic(auto)]

pub mod bitmap;
pub mod color;
