// The writers of a WDS and a PDS (01, module 5): fields and lists in, bytes into the lent output.
#![tactic(auto)]

pub mod pds;
pub mod wds;
