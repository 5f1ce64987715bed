// The objects of a display set and their joined data (01, module 7).
#![tactic(auto)]

mod chain;
mod finding;
mod joining;
mod listing;
pub mod object;
