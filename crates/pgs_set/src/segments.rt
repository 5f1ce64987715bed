// The segments of a display set, one after another.
ghost use Rattle.std.specs.Prelude.{◌≡◌, ◌∷◌};
ghost use Rattle.std.specs.Iterator.{YieldsFirst, item_count};
ghost use Rattle.pgs_set.specs.Segments.{rest_of, set_segments, set_segments_left};

use crate::open_set::{OpenSet, segment_at};
use pgs_stream::segments::PlacedSegment;

impl<'a> OpenSet<'a> {
    // The next segment, and the set behind it, unless the segment is the END.
    fn split_first(self) -> (PlacedSegment, Option<OpenSet<'a>>)
        ensures { set_segments self.entry.stream.now self.entry.from ≡ result.0 ∷ rest_of result.1 }
    {
        let segment = segment_at(self.stream, self.from);
        if segment.header.kind().is_end() {
            return (segment, None);
        }
        let rest = OpenSet {
            stream: self.stream,
            from: segment.end,
        };
        (segment, Some(rest))
    }

    // Its segments, the END the last.
    pub fn segments(self) -> SetSegments<'a>
        ensures { set_segments_left result ≡ set_segments self.entry.stream.now self.entry.from }
    {
        SetSegments { left: Some(self) }
    }
}

// What `segments` makes: the set that is still to go through, or none behind the END.
#[derive(Clone, Copy, Debug)]
pub struct SetSegments<'a> {
    left: Option<OpenSet<'a>>,
}

impl<'a> Iterator for SetSegments<'a> {
    type Item = PlacedSegment;

    ghost next_gives = { YieldsFirst set_segments_left };

    ghost remaining = { item_count set_segments_left };

    fn next(&mut self) -> Option<PlacedSegment> {
        let (segment, rest) = self.left?.split_first();
        self.left = rest;
        Some(segment)
    }
}
