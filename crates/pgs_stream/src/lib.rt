// The stream: all segments, one after another.
#![tactic(auto)]

pub mod segments;
pub mod stream;
