// The plane of R, G, B and alpha that bitmaps are painted onto, with what it then shows: 01, 'Plane'.
#![tactic(auto)]

pub mod plane;
