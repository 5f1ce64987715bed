// The tests of a display set's objects and placements, before their bitmaps are stored: 01, 'Why a call is turned down'.
ghost use Rattle.std.specs.Prelude.{◌≡◌, sum_by};
ghost use Rattle.pgs_base.specs.Outcome.{and_then, unless, verdict_of};
ghost use Rattle.pgs_render.specs.ListedSets.{display_set};
ghost use Rattle.pgs_rendering.specs.Records.{
  record_area,
  records_joined,
  records_reading,
  has_record,
  all_present,
};
ghost use Rattle.pgs_rendering.specs.Rendering.{placements_in};

use crate::listed_set::ListedSet;
use pgs_base::refusal::Refusal;
use pgs_bitmap_check::bitmap::check_rle;

impl<'a> ListedSet<'a> {
    // How many bytes of the scratch the joined data of the objects takes.
    pub(crate) fn joined_total(self) -> usize
        ensures { result ≡ records_joined self.entry.records.now }
    {
        self.records.iter().map(|record| record.joined_len()).sum()
    }

    // How many bytes their bitmaps take.
    pub(crate) fn bitmaps_total(self) -> usize
        ensures { result ≡ sum_by record_area self.entry.records.now }
    {
        self.records.iter().map(|record| record.size.area()).sum()
    }

    // Reads every bitmap through without storing it.
    fn check_bitmaps(self, scratch: &[u8]) -> Result<(), Refusal>
        ensures { verdict_of result ≡ records_reading self.entry.set.stream.now scratch.now self.entry.records.now }
    {
        for record in self.records {
            check_rle(record.data(self.set.stream, scratch), record.size)?;
        }
        Ok(())
    }

    // Whether an object has this id.
    fn has_object(self, id: u16) -> bool
        ensures { result ≡ has_record self.entry.records.now id }
    {
        self.records.iter().any(|record| record.id == id)
    }

    // Whether every placement's object is in the set.
    fn all_present(self) -> bool
        ensures { result ≡ all_present self.entry.records.now (placements_in (display_set self.entry)) }
    {
        self.placements()
            .all(|placement| self.has_object(placement.object_id))
    }

    // 24 to 33, without storing.
    pub(crate) fn check_content(self, scratch: &[u8]) -> Result<(), Refusal>
        ensures { verdict_of result ≡ and_then (records_reading self.entry.set.stream.now scratch.now self.entry.records.now)
            (unless 33 (all_present self.entry.records.now (placements_in (display_set self.entry)))) }
    {
        self.check_bitmaps(scratch)?;
        if !self.all_present() {
            return Err(Refusal::ObjectNotInSet);
        }
        Ok(())
    }
}
