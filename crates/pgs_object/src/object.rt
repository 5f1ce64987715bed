// The objects of a display set (01, module 7).
ghost use Rattle.std.specs.Prelude.{◌≡◌, map, length, MatchResult};
ghost use Rattle.pgs_base.specs.Outcome.{accepted, refused, outcome, outcome_of, verdict_of, Delivered};
ghost use Rattle.pgs_base.specs.Refusals.{number_of};
ghost use Rattle.pgs_reassembly.specs.Objects.{
  all_objects_verdict,
  chains_of,
  fragments_verdict,
  object_limit,
  objects_of,
  objects_verdict,
};
ghost use Rattle.pgs_reassembly.specs.Tables.{open_fragments};
ghost use Rattle.pgs_set.specs.Sets.{set_count};
ghost use Rattle.pgs_reassembly.specs.Reassembly.{object_records, Joined, Reassembled};

use crate::chain::ChainTable;
use crate::joining::join_objects;
use crate::listing::{joined_length, list_records};
use pgs_base::record::FromRecord;
use pgs_base::refusal::Refusal;
use pgs_reassembly::ObjectRecord;
use pgs_set::display_sets::DisplaySets;
use pgs_set::open_set::OpenSet;
use pgs_set::set::placed_set;

// The most objects that a set may have.
pub const OBJECT_LIMIT: usize = 64;

// Reassembles the objects of set number `set`: a record for each fills `objects`, from the front, and the chains of several fragments
// are joined in the scratch, from its start.
pub fn reassemble_objects<R: FromRecord<ObjectRecord>>(
    s: &[u8],
    set: usize,
    scratch: &mut [u8],
    objects: &mut [R],
) -> Result<usize, Refusal>
    ensures { Reassembled R.from_record (objects_verdict set s.now) (objects_of set s.now)
        objects.old objects.new scratch.old scratch.new (outcome result) }
{
    let found = placed_set(s, set)?.open();
    let mut table = ChainTable::new();
    table.find_with_room(found, objects.len())?;
    let rows = table.chains();
    if scratch.len() < joined_length(rows) {
        return Err(Refusal::BufferTooSmall);
    }
    list_records(rows, objects);
    join_objects(s, rows, scratch);
    Ok(rows.len())
}

// Joins the data of the objects of an open set in the scratch, from its start, and lists none: for a caller that has listed them.
pub fn join_in_set(set: OpenSet<'_>, scratch: &mut [u8]) -> Result<(), Refusal>
    ensures { Joined (fragments_verdict object_limit (open_fragments set.entry)) (chains_of (open_fragments set.entry))
        scratch.old scratch.new (verdict_of result) }
{
    let mut table = ChainTable::new();
    table.find_in_set(set)?;
    let chains = table.chains();
    if scratch.len() < joined_length(chains) {
        return Err(Refusal::BufferTooSmall);
    }
    join_objects(set.stream, chains, scratch);
    Ok(())
}

// The sets of a stream, if the objects of each reassemble: else the stream's refusal, or that of the first set that is refused. Each
// segment is looked at a fixed number of times, however many sets there are.
pub fn read_checked_sets(s: &[u8]) -> Result<DisplaySets<'_>, Refusal>
    ensures { MatchResult result (λ d. (d.stream.now ≡ s.now) × (all_objects_verdict s.now ≡ accepted)) (λ e. all_objects_verdict s.now ≡ refused (number_of e)) }
{
    let sets = DisplaySets::read(s)?;
    let mut table = ChainTable::new();
    table.check_each(sets)?;
    Ok(sets)
}

// The same, of which the answer is how many sets there are.
pub fn check_objects(s: &[u8]) -> Result<usize, Refusal>
    ensures { outcome result ≡ outcome_of (all_objects_verdict s.now) (set_count s.now) }
{
    Ok(read_checked_sets(s)?.count)
}

// Lists the objects of set number `set` without joining them: the records are those of `reassemble_objects`.
pub fn list_objects<R: FromRecord<ObjectRecord>>(
    s: &[u8],
    set: usize,
    objects: &mut [R],
) -> Result<usize, Refusal>
    ensures { Delivered (objects_verdict set s.now) (length (objects_of set s.now)) (map R.from_record (object_records (objects_of set s.now)))
        objects.old objects.new (outcome result) }
{
    list_in_set(placed_set(s, set)?.open(), objects)
}

// The same of an open set.
pub fn list_in_set<R: FromRecord<ObjectRecord>>(
    set: OpenSet<'_>,
    objects: &mut [R],
) -> Result<usize, Refusal>
    ensures { let chains = chains_of (open_fragments set.entry) in
        Delivered (fragments_verdict object_limit (open_fragments set.entry)) (length chains) (map R.from_record (object_records chains))
        objects.old objects.new (outcome result) }
{
    let mut table = ChainTable::new();
    table.find_with_room(set, objects.len())?;
    let chains = table.chains();
    list_records(chains, objects);
    Ok(chains.len())
}
