// One segment: its head and its body (01, module 4).
ghost use Rattle.std.specs.Prelude.{◌≡◌};
ghost use Rattle.pgs_base.specs.Outcome.{outcome, outcome_of};
ghost use Rattle.pgs_segment.specs.Fields.{body_verdict, body_list, body_of, numbers_of};
ghost use Rattle.pgs_segment.specs.OneSegment.{
  segment_verdict,
  frame_of,
  segment_of,
};

use crate::header::SegmentHeader;
use pgs_base::refusal::Refusal;
use pgs_ods::ods::{Ods, check_ods};
use pgs_pcs::pcs::{Pcs, check_pcs};
use pgs_pds::pds::{Pds, check_pds};
use pgs_records::BodyList;
use pgs_views::segment_type::SegmentType;
use pgs_wds::wds::check_wds;

// The kind of a body with its numbers; its list or data stands in the body.
#[derive(Clone, Copy, Debug, PartialEq, Eq)]
pub enum SegmentBody {
    Pcs(Pcs),
    Wds,
    Pds(Pds),
    Ods(Ods),
    End,
    Other(u8),
}

// A head, and where the list of the body stands that follows it.
#[derive(Clone, Copy, Debug, PartialEq, Eq)]
pub struct Frame {
    pub header: SegmentHeader,
    pub list: BodyList,
}

// One segment: its body starts 13 bytes after its own start, and the whole takes `used` bytes.
#[derive(Clone, Copy, Debug, PartialEq, Eq)]
pub struct Segment {
    pub header: SegmentHeader,
    pub body: SegmentBody,
    pub list: BodyList,
    pub used: usize,
}

fn check_end(body: &[u8]) -> Result<BodyList, Refusal>
    ensures { outcome result ≡ outcome_of (body_verdict SegmentType.End body.now) (body_list SegmentType.End body.now) }
{
    if body.len() != 0 {
        return Err(Refusal::NonEmptyEnd);
    }
    Ok(BodyList::default())
}

// Whether a body of this kind is whole, and where its list or its data stands.
fn check_body(kind: SegmentType, body: &[u8]) -> Result<BodyList, Refusal>
    ensures { outcome result ≡ outcome_of (body_verdict kind body.now) (body_list kind body.now) }
{
    match kind {
        SegmentType::Pds => check_pds(body),
        SegmentType::Ods => check_ods(body),
        SegmentType::Pcs => check_pcs(body),
        SegmentType::Wds => check_wds(body),
        SegmentType::End => check_end(body),
        SegmentType::Other(_) => Ok(BodyList {
            len: body.len(),
            ..BodyList::default()
        }),
    }
}

impl SegmentBody {
    // The numbers of a body of this kind.
    fn numbers(kind: SegmentType, body: &[u8]) -> SegmentBody
        ensures { result ≡ numbers_of (body_of kind body.now) }
    {
        match kind {
            SegmentType::Pds => SegmentBody::Pds(Pds::numbers(body)),
            SegmentType::Ods => SegmentBody::Ods(Ods::numbers(body)),
            SegmentType::Pcs => SegmentBody::Pcs(Pcs::numbers(body)),
            SegmentType::Wds => SegmentBody::Wds,
            SegmentType::End => SegmentBody::End,
            SegmentType::Other(v) => SegmentBody::Other(v),
        }
    }

    // Reads a body of this kind; its list or data stays where it is.
    pub fn parse(kind: SegmentType, body: &[u8]) -> Result<(SegmentBody, BodyList), Refusal>
        ensures { outcome result ≡ outcome_of (body_verdict kind body.now) (numbers_of (body_of kind body.now), body_list kind body.now) }
    {
        let list = check_body(kind, body)?;
        Ok((SegmentBody::numbers(kind, body), list))
    }
}

// Tests the segment at the front of `buf`.
// In line, since a call hands the frame back through memory, six words of it, and a walk needs its head alone: so counting the segments
// of captions in the cache takes four fifths of the time, and of short segments less than half.
#[inline(always)]
pub fn check_segment(buf: &[u8]) -> Result<Frame, Refusal>
    ensures { outcome result ≡ outcome_of (segment_verdict buf.now) (frame_of buf.now) }
{
    let header = SegmentHeader::parse(buf)?;
    let body = buf
        .get(SegmentHeader::SIZE..header.used())
        .ok_or(Refusal::TruncatedBody)?;
    let list = check_body(header.kind(), body)?;
    Ok(Frame { header, list })
}

impl Segment {
    // Reads the segment at the front of `buf`; bytes after it are left alone.
    pub fn parse(buf: &[u8]) -> Result<Segment, Refusal>
        ensures { outcome result ≡ outcome_of (segment_verdict buf.now) (segment_of buf.now) }
    {
        let frame = check_segment(buf)?;
        let header = frame.header;
        let used = header.used();
        let kind = header.kind();
        let body = SegmentBody::numbers(kind, &buf[SegmentHeader::SIZE..used]);
        Ok(Segment {
            header,
            body,
            list: frame.list,
            used,
        })
    }
}
