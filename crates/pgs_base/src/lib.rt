// What every layer shares: the refusals and their numbers, big-endian numbers, widths and heights, the cells of a caller's lists.
#![tactic(auto)]

pub mod dimensions;
pub mod number;
pub mod record;
pub mod refusal;
