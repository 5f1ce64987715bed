// Segments: the head, a body of any kind, one segment (01, modules 2 to 4).
#![tactic(auto)]

pub mod header;
pub mod segment;
