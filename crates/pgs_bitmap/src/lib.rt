// Object bitmaps: the run-length code of 01, 'Run-length code'.
#![tactic(auto)]

pub mod bitmap;
