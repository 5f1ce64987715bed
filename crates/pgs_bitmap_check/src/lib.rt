// The check of object bitmaps: 01, 'Run-length code'.
#![tactic(auto)]

pub mod bitmap;
