// What the calls of the C interface have in common: how they tell their caller an answer.
#![tactic(auto)]

pub mod told;
