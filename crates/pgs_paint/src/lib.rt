// Bitmaps painted onto a plane of R, G, B and alpha: 01, 'Plane'.
#![tactic(auto)]

pub mod paint;
