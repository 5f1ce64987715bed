// The writer of a PCS (01, module 5): fields and a list in, bytes into the lent output.
#![tactic(auto)]

pub mod pcs;
