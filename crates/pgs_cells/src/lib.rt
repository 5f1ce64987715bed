// The numbers of a PCS or a PDS as a record of cells, as the C interface hands them over, and back.
#![tactic(auto)]

pub mod pcs;
pub mod pds;
