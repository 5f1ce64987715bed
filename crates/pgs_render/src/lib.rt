// Painting a display set: 01, module 10.
#![tactic(auto)]

mod listed_set;
mod objects;
mod painting;
mod palette;
pub mod render;
mod storing;
