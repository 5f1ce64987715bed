// The body of a PCS (01, module 3).
#![tactic(auto)]

pub mod pcs;
pub mod placements;
