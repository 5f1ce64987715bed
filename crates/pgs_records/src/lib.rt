// What the bodies of segments share: where a body's list or data stands, and the records of such a list.
#![tactic(auto)]

pub mod list;

// The part of a body that holds its records (placements, windows, entries) or its data bytes.
// Stays a place and a length: C's calls hand over places, and a slice does not give its place back.
#[derive(Clone, Copy, Debug, Default, PartialEq, Eq)]
pub struct BodyList {
    // how many records; 0 where the part holds data bytes
    // Stays a number: the kind of the segment says whether there are records, and an Option would say it again
    pub count: usize,
    // the part's place in the body
    pub start: usize,
    // its length in bytes
    pub len: usize,
}
