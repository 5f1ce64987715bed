// Colour: from a palette entry's Y, Cr and Cb to R, G and B.
#![tactic(auto)]

pub mod ycbcr;
