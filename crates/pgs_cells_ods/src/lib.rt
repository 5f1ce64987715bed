// The numbers of an ODS as a record of cells, as the C interface hands them over, and back.
#![tactic(auto)]

pub mod ods;
