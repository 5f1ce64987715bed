// A line of text for each display set (01, 'Bench samples').
#![tactic(auto)]

mod card;
pub mod cards;
mod line;
pub mod report;
