// The segments of a stream that was accepted, one after another.
ghost use Rattle.std.specs.Prelude.{◌≡◌, ◌+◌, ◌-◌, take, drop};
ghost use Rattle.pgs_base.specs.Outcome.{accepted};
ghost use Rattle.pgs_stream.specs.Stream.{stream_verdict};

use pgs_segment::header::{SegmentHeader, header_at};

// A segment where it stands in a stream.
#[derive(Clone, Copy, Debug, PartialEq, Eq)]
pub struct PlacedSegment {
    // the place of its head
    pub at: usize,
    pub header: SegmentHeader,
    // the place just after it
    pub end: usize,
}

impl PlacedSegment {
    // Its body, in the stream that it is of; of a shorter list, what there is of it.
    // Stays a function of the stream: an item that holds the stream would have to promise of each that it is of that very stream, which is
    // no plainer than to hand the stream over.
    pub fn body<'a>(self, stream: &'a [u8]) -> &'a [u8]
        ensures { result.now ≡ take (self.end - (self.at + 13)) (drop (self.at + 13) stream.now) }
    {
        let from = stream.get(self.at..).unwrap_or(&[]);
        let rest = from.get(SegmentHeader::SIZE..).unwrap_or(&[]);
        let len = self
            .end
            .saturating_sub(self.at)
            .saturating_sub(SegmentHeader::SIZE);
        rest.get(..len).unwrap_or(rest)
    }
}

// What is left of a stream from a place on; it is accepted from there on, so that its segments are not tested again.
#[derive(Clone, Copy, Debug)]
pub struct Segments<'a> {
    pub stream: &'a [u8],
    pub at: usize,
    pub ghost good: { stream_verdict (drop at stream.now) ≡ accepted },
}

impl<'a> Iterator for Segments<'a> {
    ghost use Rattle.std.specs.Iterator.{YieldsFirst, item_count};
    ghost use Rattle.pgs_stream.specs.Segments.{segments_left};

    type Item = PlacedSegment;

    ghost next_gives = { YieldsFirst segments_left };

    ghost remaining = { item_count segments_left };

    fn next(&mut self) -> Option<PlacedSegment> {
        if self.stream.len() <= self.at {
            return None;
        }
        let at = self.at;
        let header = header_at(self.stream, at);
        let end = at + header.used();
        self.at = end;
        Some(PlacedSegment { at, header, end })
    }
}
