// The states of a composition, as views of the state's byte.
ghost use Rattle.std.specs.Prelude.{◌≡◌};
ghost use Rattle.pgs_views.specs.States.{state_of, raw_state};

#[derive(Clone, Copy, Debug, PartialEq, Eq)]
pub enum CompositionState {
    Normal,
    AcquisitionPoint,
    EpochStart,
    Other(u8),
}

impl From<u8> for CompositionState {
    ghost from_gives = { λ v state. state ≡ state_of v };

    fn from(v: u8) -> Self {
        match v {
            0x00 => CompositionState::Normal,
            0x40 => CompositionState::AcquisitionPoint,
            0x80 => CompositionState::EpochStart,
            _ => CompositionState::Other(v),
        }
    }
}

impl From<CompositionState> for u8 {
    ghost from_gives = { λ state v. v ≡ raw_state state };

    fn from(state: CompositionState) -> Self {
        match state {
            CompositionState::Normal => 0x00,
            CompositionState::AcquisitionPoint => 0x40,
            CompositionState::EpochStart => 0x80,
            CompositionState::Other(v) => v,
        }
    }
}
