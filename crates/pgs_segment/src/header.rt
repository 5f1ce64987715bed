// The 13-byte head of a segment (01, module 2).
ghost use Rattle.std.specs.Prelude.{◌≡◌, ◌+◌, drop};
ghost use Rattle.pgs_base.specs.Outcome.{outcome};
ghost use Rattle.pgs_segment.specs.Header.{header_fields, header_of};
ghost use Rattle.pgs_views.specs.Kinds.{type_of};

use pgs_base::refusal::Refusal;
use pgs_fields::{u8_at, u16_at, u32_at};
use pgs_views::segment_type::SegmentType;

#[derive(Clone, Copy, Debug, PartialEq, Eq)]
pub struct SegmentHeader {
    pub pts: u32,
    pub dts: u32,
    // Stays a byte, whose kind is `kind`: a `SegmentType::Other` of a caller could hold the byte of a known kind
    pub segment_type: u8,
    pub segment_size: u16,
}

impl SegmentHeader {
    // The size of the head itself.
    pub const SIZE: usize = 13;

    // The two bytes that a head begins with.
    pub const MAGIC: [u8; 2] = *b"PG";

    pub fn parse(buf: &[u8]) -> Result<SegmentHeader, Refusal>
        ensures { outcome result ≡ header_of buf.now }
    {
        if buf.len() < SegmentHeader::SIZE {
            return Err(Refusal::TruncatedHeader);
        }
        if !buf.starts_with(&SegmentHeader::MAGIC) {
            return Err(Refusal::BadMagic);
        }
        Ok(SegmentHeader::fields(buf))
    }

    // The fields of the head at the front of `l`, whatever stands there.
    #[inline]
    fn fields(l: &[u8]) -> SegmentHeader
        ensures { result ≡ header_fields l.now }
    {
        SegmentHeader {
            pts: u32_at(l, 2),
            dts: u32_at(l, 6),
            segment_type: u8_at(l, 10),
            segment_size: u16_at(l, 11),
        }
    }

    // The same of a list that ends within the head, which no walk meets.
    // Stays a function of its own, with the same body: with the fields in line here too, walks are larger, and listing objects takes 7 %
    // longer, `check_objects` 18 %.
    #[cold]
    fn fields_there(l: &[u8]) -> SegmentHeader
        ensures { result ≡ header_fields l.now }
    {
        SegmentHeader::fields(l)
    }

    // The kind of the segment.
    pub fn kind(self) -> SegmentType
        ensures { result ≡ type_of self.segment_type }
    {
        SegmentType::from(self.segment_type)
    }

    // How many bytes the segment takes: its head and its body.
    pub fn used(self) -> usize
        ensures { result ≡ 13 + self.segment_size }
    {
        SegmentHeader::SIZE + usize::from(self.segment_size)
    }
}

// The fields of a head at a place, whatever stands there: for a walk over a stream that was read before.
pub fn header_at(s: &[u8], at: usize) -> SegmentHeader
    ensures { result ≡ header_fields (drop at s.now) }
{
    let rest = s.get(at..).unwrap_or(&[]);
    // Of a part as long as a head, the fields are read with no test of their places.
    match rest.get(..SegmentHeader::SIZE) {
        Some(head) => SegmentHeader::fields(head),
        None => SegmentHeader::fields_there(rest),
    }
}
