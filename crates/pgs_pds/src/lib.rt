// The body of a PDS (01, module 3).
#![tactic(auto)]

pub mod pds;
