// Finding and testing the objects of a display set (01, module 7), before anything is written.
ghost use Rattle.std.specs.Prelude.{◌≡◌, length};
ghost use Rattle.pgs_base.specs.Outcome.{and_then, needing, verdict_of};
ghost use Rattle.pgs_reassembly.specs.Objects.{
  chains_of,
  each_verdict,
  fragments_verdict,
  object_limit,
};
ghost use Rattle.pgs_set.specs.Sets.{sets_of};
ghost use Rattle.pgs_reassembly.specs.Tables.{Found, open_fragments};

use crate::chain::ChainTable;
use crate::listing::check_chains;
use pgs_base::refusal::Refusal;
use pgs_set::display_sets::DisplaySets;
use pgs_set::open_set::{OpenSet, PlacedSet};

impl ChainTable {
    // Finds the objects of an open set, and tests them.
    pub(crate) fn find_in_set(&mut self, set: OpenSet<'_>) -> Result<(), Refusal>
        ensures { Found set.entry.stream.now (fragments_verdict object_limit (open_fragments set.entry)) (chains_of (open_fragments set.entry))
            self.new (verdict_of result) }
    {
        self.find_chains(set)?;
        check_chains(self.chains())
    }

    // The same for a list that has room for so many records.
    pub(crate) fn find_with_room(&mut self, set: OpenSet<'_>, room: usize) -> Result<(), Refusal>
        ensures { let objects = chains_of (open_fragments set.entry) in
            Found set.entry.stream.now (and_then (fragments_verdict object_limit (open_fragments set.entry)) (needing (length objects) room)) objects
            self.new (verdict_of result) }
    {
        self.find_in_set(set)?;
        if room < self.chains().len() {
            return Err(Refusal::BufferTooSmall);
        }
        Ok(())
    }

    // Tests the objects of each of the sets of a stream, up to the first set that is refused.
    pub(crate) fn check_each(&mut self, sets: DisplaySets<'_>) -> Result<(), Refusal>
        ensures { verdict_of result ≡ each_verdict object_limit (sets_of sets.entry.stream.now) }
    {
        for set in sets.records() {
            // Stays made here: a set's record is numbers alone, of no stream; that a set stands at its place, this loop knows.
            // `SetRecords::next` makes a `PlacedSet` too, but what it gives is a record, for the lists of C.
            let found = PlacedSet {
                stream: sets.stream,
                place: set.place,
            };
            self.find_in_set(found.open())?;
        }
        Ok(())
    }
}
