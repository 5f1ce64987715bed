// The fragments of a display set, and the chains that they make up (01, module 7).
ghost use Rattle.std.specs.Prelude.{◌≡◌, ◌+◌, ◌≤◌, ◌<◌, ◌^◌, true, [], ◌∷◌, ◌++◌, map, length, take, drop};
ghost use Rattle.pgs_base.specs.Outcome.{accepted, verdict_of};
ghost use Rattle.pgs_segment.specs.Header.{header_fields};
ghost use Rattle.pgs_stream.specs.Segments.{placed};
ghost use Rattle.pgs_stream.specs.Stream.{step_verdict};
ghost use Rattle.pgs_reassembly.specs.Objects.{
  chains_of,
  first_verdict,
  next_verdict,
  object_limit,
  verdict_after,
};
ghost use Rattle.pgs_reassembly.specs.Tables.{
  chain_row,
  extended,
  fragment_read,
  new_row,
  open_fragments,
  row_with,
  rows_after,
  state_in,
  take_verdict,
  total,
  Leaves,
};

use crate::object::OBJECT_LIMIT;
use pgs_base::refusal::Refusal;
use pgs_ods::ods::Ods;
use pgs_reassembly::{ChainRow, FragmentNumbers};
use pgs_segment::header::SegmentHeader;
use pgs_set::open_set::OpenSet;
use pgs_stream::segments::PlacedSegment;
use std::marker::Model;

// The fragment in a segment of an accepted stream, if it is an ODS. In line: a call would copy the numbers to its caller, for each segment.
#[inline]
pub(crate) fn read_fragment(s: &[u8], segment: PlacedSegment) -> Option<FragmentNumbers>
    requires step { step_verdict (drop segment.at s.now) ≡ accepted }
    requires stands { segment ≡ placed segment.at (header_fields (drop segment.at s.now)) }
    ensures { result ≡ fragment_read s.now segment }
{
    if !segment.header.kind().is_ods() {
        return None;
    }
    // the segment was accepted, so its body is
    let (ods, data) = Ods::parse(segment.body(s)).unwrap();
    Some(FragmentNumbers {
        place: segment.at,
        ods,
        start: segment.at + SegmentHeader::SIZE + data.start,
        len: data.len,
    })
}

// The chains of a set, in first-seen order.
// Stays an array with a count: nothing allocates, so that there is no `Vec`. The toolchain's `ArrayVec` does not allocate either, and was
// tried: it proves, but the functions get no shorter, the table needs a `clear` of its own, and `check_objects` takes 4 to 6 % longer for
// small sets and for chains of four fragments, 8 % more instructions for objects of one.
#[derive(Drop)]
pub(crate) struct ChainTable {
    rows: [ChainRow; OBJECT_LIMIT],
    // how many of the rows are chains
    count: usize,
}

impl Model for ChainTable {
    ghost use Rattle.std.specs.Prelude.{List, take, ◌≤◌};
    ghost use Rattle.pgs_reassembly.specs.declared.ChainRow.{ChainRow};

    ghost Value = { List ChainRow };

    ghost view = { λ t. take t.count t.rows };

    ghost invariant = { λ t. t.count ≤ 64 };
}

impl ChainTable {
    pub(crate) fn new() -> ChainTable
        ensures { result ≡ [] }
    {
        ChainTable {
            rows: [ChainRow::default(); OBJECT_LIMIT],
            count: 0,
        }
    }

    pub(crate) fn chains(&self) -> &[ChainRow]
        ensures { result.now ≡ self.now }
    {
        &self.rows[..self.count]
    }

    // The number of the chain with this id.
    fn find(&self, id: u16) -> Option<usize>
        ensures { result ≡ row_with id self.now }
    {
        self.chains()
            .iter()
            .position(|row| row.first.ods.object_id == id)
    }

    // A first fragment opens a chain, unless its id is known or the table is full.
    fn open(&mut self, f: FragmentNumbers) -> Result<(), Refusal>
        ensures { Leaves (first_verdict object_limit (length self.old) (state_in f.ods.object_id self.old)) (self.old ++ (new_row f ∷ []))
            self.new (verdict_of result) }
    {
        if let Some(i) = self.find(f.ods.object_id) {
            if self.rows[i].closed {
                return Err(Refusal::DuplicateObject);
            }
            return Err(Refusal::FirstFragmentWhileOpen);
        }
        if self.count == OBJECT_LIMIT {
            return Err(Refusal::TooManyObjects);
        }
        self.rows[self.count] = ChainRow {
            first: f,
            closed: f.ods.is_last(),
            copied: false,
            len: f.len,
        };
        self.count += 1;
        Ok(())
    }

    // A continuation extends the chain of its id, if it is open.
    // Stays a bound in contracts, here and in `take`, `joined_length` and `list_records`: as an invariant of the table it would not bound the
    // next sum, nor a slice of rows.
    fn extend(&mut self, f: FragmentNumbers) -> Result<(), Refusal>
        requires { total self.old + f.len < 2 ^ 64 }
        ensures { Leaves (next_verdict (state_in f.ods.object_id self.old)) (extended f self.old) self.new (verdict_of result) }
    {
        let i = self
            .find(f.ods.object_id)
            .ok_or(Refusal::FragmentWithoutFirst)?;
        let row = self.rows[i];
        if row.closed {
            return Err(Refusal::FragmentAfterLast);
        }
        self.rows[i] = ChainRow {
            closed: f.ods.is_last(),
            copied: true,
            len: row.len + f.len,
            ..row
        };
        Ok(())
    }

    // Takes one more fragment of the set.
    fn take(&mut self, f: FragmentNumbers) -> Result<(), Refusal>
        requires { total self.old + f.len < 2 ^ 64 }
        ensures { Leaves (take_verdict self.old f) (rows_after self.old f) self.new (verdict_of result) }
    {
        if f.ods.is_first() {
            self.open(f)
        } else {
            self.extend(f)
        }
    }

    // Finds the chains of an open set, in place of those that the table held: one table serves all sets of a stream.
    // Stays a loop that reads each segment, as in `join_chain`: an iterator of fragments would have a loop in its `next` and laws of its own,
    // for two callers.
    pub(crate) fn find_chains(&mut self, set: OpenSet<'_>) -> Result<(), Refusal>
        ensures chains { Leaves (verdict_after object_limit [] (open_fragments set.entry)) (map chain_row (chains_of (open_fragments set.entry)))
            self.new (verdict_of result) }
        ensures small { verdict_of result ≡ accepted → total self.new ≤ length set.entry.stream.now }
    {
        self.count = 0;
        for segment in set.segments() {
            if let Some(f) = read_fragment(set.stream, segment) {
                self.take(f)?;
            }
        }
        Ok(())
    }
}
