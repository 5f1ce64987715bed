// A bitmap stored inside one memory: its data stands in the memory that its pixels go to.
#![tactic(auto)]

pub mod within;
