// The records of a stream's segments as a lent mutable slice of structs, the form that 01 names: the reading of pgs_stream, over
// another record.
#![tactic(auto)]

ghost use Rattle.pgs_base.specs.Outcome.{outcome, Delivered};
ghost use Rattle.pgs_stream.specs.Segments.{placed_record};
ghost use Rattle.pgs_stream.specs.Stream.{segment_count, stream_verdict};
ghost use Rattle.pgs_segment_list.specs.Segments.{record_at, segment_records};

use pgs_base::record::FromRecord;
use pgs_base::refusal::Refusal;
use pgs_segment::header::SegmentHeader;
use pgs_stream::segments::PlacedSegment;

// A segment's record: its place in the stream, and its head.
#[derive(Clone, Copy, Debug, PartialEq, Eq)]
pub struct SegmentRecord {
    pub place: usize,
    pub header: SegmentHeader,
}

impl FromRecord<PlacedSegment> for SegmentRecord {
    ghost from_record = { placed_record record_at };

    fn from_record(item: PlacedSegment) -> SegmentRecord {
        SegmentRecord {
            place: item.at,
            header: item.header,
        }
    }
}

// Reads a stream; a record for each segment fills the caller's list, from the front.
pub fn parse_segments(s: &[u8], list: &mut [SegmentRecord]) -> Result<usize, Refusal>
    ensures { Delivered (stream_verdict s.now) (segment_count s.now) (segment_records s.now) list.old list.new (outcome result) }
{
    pgs_stream::stream::parse_segments(s, list)
}

// A list of eight records by value, and what a call that was lent it answered.
// Stays eight, not `const N: usize`: it shows that a list may be passed by value; whoever wants another length lends an array to
// `parse_segments`, which takes any length.
#[derive(Clone, Copy, Debug, PartialEq, Eq)]
pub struct Eight {
    pub answer: Result<usize, Refusal>,
    pub list: [SegmentRecord; 8],
}

// The same of a list that is passed by value and handed back.
pub fn parse_eight(s: &[u8], list: [SegmentRecord; 8]) -> Eight
    ensures { Delivered (stream_verdict s.now) (segment_count s.now) (segment_records s.now) list result.list (outcome result.answer) }
{
    let mut held = list;
    let answer = parse_segments(s, &mut held);
    Eight { answer, list: held }
}
