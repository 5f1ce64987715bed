// The head of a segment.
ghost use Rattle.std.specs.Prelude.{◌≡◌};
ghost use Rattle.std.proofs.lemmas.List.Edits.{sets};
ghost use Rattle.pgs_encoding.specs.Encode.{head_fields};
ghost use Rattle.pgs_encoding.specs.Layout.{written};
ghost use Rattle.pgs_views.specs.Kinds.{raw_of};

use crate::put::{put_array, put_u8, put_u16, put_u32};
use pgs_segment::header::SegmentHeader;
use pgs_views::segment_type::SegmentType;

// The two times of a segment.
#[derive(Clone, Copy, Debug, PartialEq, Eq)]
pub struct Timestamps {
    pub pts: u32,
    pub dts: u32,
}

// Stores a head at the front of the output, or as much of it as fits.
// Stays by times, kind and size: `put_front`, the one caller, has these three, and would make a `SegmentHeader` of them for this call.
pub fn put_head(out: &mut [u8], times: Timestamps, kind: SegmentType, size: u16)
    ensures { out.new ≡ sets out.old 0 (written (head_fields times.pts times.dts (raw_of kind) size)) }
{
    put_array(out, 0, &SegmentHeader::MAGIC);
    put_u32(out, 2, times.pts);
    put_u32(out, 6, times.dts);
    put_u8(out, 10, u8::from(kind));
    put_u16(out, 11, size);
}
