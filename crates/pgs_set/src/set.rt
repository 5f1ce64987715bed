// The display sets of a stream (01, module 6).
ghost use Rattle.std.specs.Prelude.{◌≡◌, [], length, map, MatchResult};
ghost use Rattle.pgs_base.specs.Outcome.{accepted, refused, and_then, outcome, outcome_of, Delivered};
ghost use Rattle.pgs_base.specs.Refusals.{number_of};
ghost use Rattle.pgs_stream.specs.Stream.{stream_verdict};
ghost use Rattle.pgs_set.specs.Sets.{
  group_verdict,
  set_count,
  set_number,
  set_verdict,
  sets_verdict,
};
ghost use Rattle.pgs_set.specs.Records.{record_row, set_records};
ghost use Rattle.pgs_set.specs.Walks.{FoundSet, set_at};

use crate::display_sets::DisplaySets;
use crate::grouping::{Grouping, group_segment};
use crate::open_set::PlacedSet;
use pgs_base::record::FromRecord;
use pgs_base::refusal::Refusal;
use pgs_segment::segment::check_segment;
use pgs_stream::stream::count_segments;

// The record of one set.
#[derive(Clone, Copy, Debug, PartialEq, Eq)]
pub struct SetRecord {
    // the place of its PCS
    pub place: usize,
    // the place just after its END
    pub end: usize,
    // the PTS of its PCS
    pub pts: u32,
}

// How the grouping of a stream ends: 15 where a set is open.
fn grouped(state: Grouping, n: usize) -> Result<usize, Refusal>
    ensures { outcome result ≡ outcome_of (group_verdict state []) n }
{
    match state {
        Grouping::Outside => Ok(n),
        Grouping::Inside { .. } => Err(Refusal::UnterminatedSet),
    }
}

// The refusal that comes first where grouping refuses a segment by `why`, and `rest` is what follows it: 1 to 7 anywhere come before 8 to
// 15, so it is that of a segment of the rest, if one is refused.
fn first_refusal(rest: &[u8], why: Refusal) -> Refusal
    ensures { refused (number_of result) ≡ and_then (stream_verdict rest.now) (refused (number_of why)) }
{
    count_segments(rest).err().unwrap_or(why)
}

// How many sets a stream has: each segment is read and grouped in one walk, since past the caches every head is a memory access. A
// segment takes 13 bytes at least, so that 7 cannot come.
pub fn group_display_sets(s: &[u8]) -> Result<usize, Refusal>
    ensures { outcome result ≡ outcome_of (sets_verdict s.now) (set_count s.now) }
{
    let mut rest = s;
    let mut state = Grouping::Outside;
    let mut n: usize = 0;
    // Stays a loop beside that of `count_segments`, which counts alone: this one also groups, and where grouping refuses, the rest is still
    // read. An iterator of frames for both would have to be written, with laws of what it gives and of its end.
    while !rest.is_empty() {
        let header = check_segment(rest)?.header;
        let kind = header.kind();
        rest = &rest[header.used()..];
        state = group_segment(state, kind).map_err(|why| first_refusal(rest, why))?;
        n += usize::from(kind.is_pcs());
    }
    grouped(state, n)
}

// As a row of cells: place, end, PTS.
// Stays a row of numbers: the C interface lends such lists.
impl FromRecord<SetRecord> for [u64; 3] {
    ghost from_record = { record_row };

    fn from_record(item: SetRecord) -> [u64; 3] {
        [item.place as u64, item.end as u64, u64::from(item.pts)]
    }
}

// Stores the records of the sets, one in each cell of the list.
// Stays a loop here: one for every iterator would have to ask that its `next` may be called, which no public function does, or need a trait
// of such iterators, whose impls are as long as this loop. Nor is it a `zip`: std says nothing of a slice that is written through `zip` of
// its `iter_mut`.
fn fill_sets<R: FromRecord<SetRecord>>(sets: DisplaySets<'_>, list: &mut [R])
    requires { sets.count ≡ length list.old }
    ensures { list.new ≡ map R.from_record (set_records sets.entry.stream.now) }
{
    let mut records = sets.records();
    for record in list {
        if let Some(set) = records.next() {
            *record = R::from_record(set);
        }
    }
}

// Reads a stream; a record for each display set fills the caller's list, from the front.
pub fn parse_display_sets<R: FromRecord<SetRecord>>(
    s: &[u8],
    sets: &mut [R],
) -> Result<usize, Refusal>
    ensures { Delivered (sets_verdict s.now) (set_count s.now) (map R.from_record (set_records s.now)) sets.old sets.new (outcome result) }
{
    let read = DisplaySets::read(s)?;
    if sets.len() < read.count {
        return Err(Refusal::BufferTooSmall);
    }
    fill_sets(read, &mut sets[..read.count]);
    Ok(read.count)
}

// The record of set number k.
pub fn find_set(s: &[u8], k: usize) -> Result<SetRecord, Refusal>
    ensures { FoundSet s.now k (outcome result) }
{
    DisplaySets::read(s)?
        .records()
        .nth(k)
        .ok_or(Refusal::NoSuchSet)
}

// Set number k, at its place.
pub fn placed_set(s: &[u8], k: usize) -> Result<PlacedSet<'_>, Refusal>
    ensures { MatchResult result (λ p. (p.stream.now ≡ s.now) × (set_verdict k s.now ≡ accepted) × (set_at s.now p.place ≡ set_number k s.now))
        (λ e. set_verdict k s.now ≡ refused (number_of e)) }
{
    let place = find_set(s, k)?.place;
    Ok(PlacedSet { stream: s, place })
}
