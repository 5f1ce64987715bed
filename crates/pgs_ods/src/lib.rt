// The body of an ODS (01, module 3).
#![tactic(auto)]

pub mod ods;
