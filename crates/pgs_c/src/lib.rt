// The C interface: what include/pgs.h declares.
// Every function that can refuse answers 0 when the call is accepted, else the refusal's number, and then leaves every other parameter
// as it was; painting alone has its own rule.
// Stays a function for each call, which passes it on: a static library exports the functions of its own crate.
#![tactic(auto)]

pub mod bitmap;
pub mod cards;
pub mod color;
pub mod render;
pub mod segments;
pub mod sets;
pub mod writing;
