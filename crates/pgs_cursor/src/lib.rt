// The cursor over a body: numbers read one after another.
#![tactic(auto)]

pub mod cursor;
