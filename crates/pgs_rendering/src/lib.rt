// Definitions of painting a display set, and what follows from them: 01, module 10. `pgs_render` paints by them.
#![tactic(auto)]

use pgs_base::dimensions::Dimensions;

// What painting a display set answers: the size of its plane, and the PTS of its PCS.
#[derive(Clone, Copy, Debug, PartialEq, Eq)]
pub struct Shown {
    pub size: Dimensions,
    pub pts: u32,
}
