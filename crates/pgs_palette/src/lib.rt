// The palette that painting looks colours up in.
#![tactic(auto)]

pub mod palette;
