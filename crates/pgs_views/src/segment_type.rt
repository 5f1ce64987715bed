// The kinds of segments, as views of the kind's byte.
ghost use Rattle.std.specs.Prelude.{◌≡◌};
ghost use Rattle.pgs_views.specs.Kinds.{type_of, raw_of, is_pds, is_ods, is_pcs, is_end};

#[derive(Clone, Copy, Debug, PartialEq, Eq)]
pub enum SegmentType {
    Pds,
    Ods,
    Pcs,
    Wds,
    End,
    Other(u8),
}

impl From<u8> for SegmentType {
    ghost from_gives = { λ v kind. kind ≡ type_of v };

    fn from(v: u8) -> Self {
        match v {
            0x14 => SegmentType::Pds,
            0x15 => SegmentType::Ods,
            0x16 => SegmentType::Pcs,
            0x17 => SegmentType::Wds,
            0x80 => SegmentType::End,
            _ => SegmentType::Other(v),
        }
    }
}

impl From<SegmentType> for u8 {
    ghost from_gives = { λ kind v. v ≡ raw_of kind };

    fn from(kind: SegmentType) -> Self {
        match kind {
            SegmentType::Pds => 0x14,
            SegmentType::Ods => 0x15,
            SegmentType::Pcs => 0x16,
            SegmentType::Wds => 0x17,
            SegmentType::End => 0x80,
            SegmentType::Other(v) => v,
        }
    }
}

impl SegmentType {
    // Whether the segment has a palette.
    pub fn is_pds(self) -> bool
        ensures { result ≡ is_pds self }
    {
        matches!(self, SegmentType::Pds)
    }

    // Whether the segment has an object, or a fragment of one.
    pub fn is_ods(self) -> bool
        ensures { result ≡ is_ods self }
    {
        matches!(self, SegmentType::Ods)
    }

    // Whether the segment opens a display set.
    pub fn is_pcs(self) -> bool
        ensures { result ≡ is_pcs self }
    {
        matches!(self, SegmentType::Pcs)
    }

    // Whether the segment closes a display set.
    pub fn is_end(self) -> bool
        ensures { result ≡ is_end self }
    {
        matches!(self, SegmentType::End)
    }
}
