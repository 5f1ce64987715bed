// A display set at its place in a stream, and open behind its PCS.
ghost use Rattle.std.specs.Prelude.{◌≡◌, ◌+◌, ◌<◌, drop, length};
ghost use Rattle.pgs_base.specs.Outcome.{accepted};
ghost use Rattle.pgs_segment.specs.Header.{header_fields};
ghost use Rattle.pgs_segment.specs.OneSegment.{used_by};
ghost use Rattle.pgs_stream.specs.Segments.{placed};
ghost use Rattle.pgs_stream.specs.Stream.{stream_verdict};
ghost use Rattle.pgs_set.specs.Walks.{InSet, Ends, SetBegins};

use pgs_stream::segments::{PlacedSegment, Segments};

// The segment at a place where an accepted stream has one.
pub(crate) fn segment_at(s: &[u8], at: usize) -> PlacedSegment
    requires stream_good { stream_verdict (drop at s.now) ≡ accepted }
    requires place_bound { at < length s.now }
    ensures { result ≡ placed at (header_fields (drop at s.now)) }
{
    // it is the first from there on
    Segments { stream: s, at }.next().unwrap()
}

// The segments of a display set from a place on, in a stream that is accepted from there on: the set is open at that place.
#[derive(Clone, Copy, Debug)]
pub struct OpenSet<'a> {
    pub stream: &'a [u8],
    pub from: usize,
    pub ghost in_set: { ∥ InSet stream.now from ∥₁ },
}

// A display set whose PCS stands at a place, in a stream that is accepted from there on.
#[derive(Clone, Copy, Debug)]
pub struct PlacedSet<'a> {
    pub stream: &'a [u8],
    pub place: usize,
    pub ghost begins: { SetBegins stream.now place },
}

impl<'a> PlacedSet<'a> {
    // Its PCS, and the set behind it.
    pub fn split_first(self) -> (PlacedSegment, OpenSet<'a>)
        ensures pcs_value { result.0 ≡ placed self.entry.place (header_fields (drop self.entry.place self.entry.stream.now)) }
        ensures stream_value { result.1.stream.now ≡ self.entry.stream.now }
        ensures from_value { result.1.from ≡ self.entry.place + used_by (drop self.entry.place self.entry.stream.now) }
    {
        let pcs = segment_at(self.stream, self.place);
        let others = OpenSet {
            stream: self.stream,
            from: pcs.end,
        };
        (pcs, others)
    }

    // The set behind its PCS.
    pub fn open(self) -> OpenSet<'a>
        ensures stream_value { result.stream.now ≡ self.entry.stream.now }
        ensures from_value { result.from ≡ self.entry.place + used_by (drop self.entry.place self.entry.stream.now) }
    {
        self.split_first().1
    }
}

impl<'a> OpenSet<'a> {
    // The place just after the END of the set.
    pub fn end(self) -> usize
        ensures { Ends self.entry.stream.now self.entry.from result }
    {
        self.segments()
            .last()
            .map_or(self.from, |segment| segment.end)
    }
}
