// The writers of an ODS, an END and a segment of an unknown kind (01, module 5): fields and data in, bytes into the lent output.
#![tactic(auto)]

pub mod end;
pub mod ods;
pub mod other;
