// The list of writes (01, 'The cut stream'): the segments of a stream, read and written one after another.
// `specs/Demand3.antt` of pgs_encoding says what is proved of it.
#![tactic(auto)]

mod rewrite;
pub mod stream;
