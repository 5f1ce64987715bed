// What the writers share: numbers and a head stored in the lent output, segments of a body, and what their records and answers
// stand for.
#![tactic(auto)]

pub mod body;
pub mod head;
pub mod put;
pub mod rows;
