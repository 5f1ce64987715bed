// The body of a WDS (01, module 3).
#![tactic(auto)]

pub mod wds;
