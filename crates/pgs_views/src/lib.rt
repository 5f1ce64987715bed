// The kind, state and flag bytes of segments, as typed views.
#![tactic(auto)]

pub mod composition_state;
pub mod fragment_flag;
pub mod palette_update;
pub mod segment_type;
