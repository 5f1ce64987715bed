// The stream: all segments, one after another (01, module 4).
ghost use Rattle.std.specs.Prelude.{◌≡◌, length, map};
ghost use Rattle.pgs_base.specs.Outcome.{outcome, outcome_of, Delivered};
ghost use Rattle.pgs_stream.specs.Stream.{
  head_row,
  records_of,
  segment_count,
  stream_verdict,
};
ghost use Rattle.pgs_stream.specs.Segments.{of_placed, placed_record, segments_left};

use crate::segments::{PlacedSegment, Segments};
use pgs_base::record::FromRecord;
use pgs_base::refusal::Refusal;
use pgs_segment::segment::check_segment;

// Reads the stream once without storing: how many segments it has.
pub fn count_segments(s: &[u8]) -> Result<usize, Refusal>
    ensures { outcome result ≡ outcome_of (stream_verdict s.now) (segment_count s.now) }
{
    let mut rest = s;
    let mut n: usize = 0;
    // Stays a loop: where the next segment stands is known from this one alone, so that an iterator of frames would have to be written for
    // it, with laws of what it gives and of its end. The walk that groups (`group_display_sets`) is no second one that it would serve: there
    // a refusal of grouping waits for the rest of the stream, and here the first refusal ends the walk.
    while !rest.is_empty() {
        let used = check_segment(rest)?.header.used();
        if used == 0 {
            return Err(Refusal::ZeroLengthSegment);
        }
        rest = &rest[used..];
        n += 1;
    }
    Ok(n)
}

// As a row of cells: place, PTS, DTS, the kind's byte, body length.
// Stays a row of numbers: the C interface lends such lists.
impl FromRecord<PlacedSegment> for [u64; 5] {
    ghost from_record = { placed_record head_row };

    fn from_record(item: PlacedSegment) -> [u64; 5] {
        let header = item.header;
        [
            item.at as u64,
            u64::from(header.pts),
            u64::from(header.dts),
            u64::from(header.segment_type),
            u64::from(header.segment_size),
        ]
    }
}

// Stores the records of the segments, one in each cell of the list.
// Stays a loop here: one for every iterator would have to ask that its `next` may be called, which no public function does, or need a trait
// of such iterators, whose impls are as long as this loop. Nor is it a `zip`: std says nothing of a slice that is written through `zip` of
// its `iter_mut`.
fn fill_segments<R: FromRecord<PlacedSegment>>(mut segments: Segments, list: &mut [R])
    requires { length (segments_left segments) ≡ length list.old }
    ensures { list.new ≡ map R.from_record (segments_left segments.entry) }
{
    for record in list {
        if let Some(segment) = segments.next() {
            *record = R::from_record(segment);
        }
    }
}

// Reads a stream; a record for each segment fills the caller's list, from the front.
pub fn parse_segments<R: FromRecord<PlacedSegment>>(
    s: &[u8],
    list: &mut [R],
) -> Result<usize, Refusal>
    ensures { Delivered (stream_verdict s.now) (segment_count s.now) (records_of (of_placed R.from_record) s.now) list.old list.new (outcome result) }
{
    let n = count_segments(s)?;
    if list.len() < n {
        return Err(Refusal::BufferTooSmall);
    }
    fill_segments(Segments { stream: s, at: 0 }, &mut list[..n]);
    Ok(n)
}
