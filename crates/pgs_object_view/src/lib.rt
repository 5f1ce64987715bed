// The data of an object, as a part of the stream or of the scratch.
#![tactic(auto)]

pub mod view;
