// Storing the bitmaps of a display set's objects in the scratch, after the joined data.
ghost use Rattle.std.specs.Prelude.{◌≡◌, ◌++◌, ◌+◌, take, drop};
ghost use Rattle.pgs_bitmap_check.specs.Bitmap.{bitmap_of};
ghost use Rattle.pgs_reassembly.specs.Reassembly.{record_data};
ghost use Rattle.pgs_rendering.specs.Records.{
  Storable,
  AllStorable,
  record_area,
  records_area,
  records_bitmaps,
};

use crate::listed_set::ListedSet;
use pgs_bitmap_store::bitmap::store_rle;
use pgs_bitmap_within::within::store_within;
use pgs_reassembly::ObjectRecord;

// Stores the bitmap of one object from `at` on; it was read through before.
fn store_bitmap(s: &[u8], object: ObjectRecord, at: usize, scratch: &mut [u8])
    requires { Storable s.now object at scratch.old }
    ensures { scratch.new ≡ take at scratch.old ++ (bitmap_of (record_data s.now scratch.old object) ++ drop (at + record_area object) scratch.old) }
{
    if object.copied {
        store_within(scratch, object.place, object.len, at);
    } else {
        let end = at + object.size.area();
        store_rle(object.data(s, &[]), &mut scratch[at..end]);
    }
}

impl<'a> ListedSet<'a> {
    // Stores the bitmaps one after another from `from` on.
    // Stays a place: of an output whose parts are taken off by `split_off_mut`, std does not say what the whole then holds; and the data is
    // read from the same memory.
    pub(crate) fn store_bitmaps(self, from: usize, scratch: &mut [u8])
        requires { AllStorable self.set.stream.now self.records.now from scratch.old }
        ensures { scratch.new ≡ take from scratch.old ++ (records_bitmaps self.entry.set.stream.now scratch.old self.entry.records.now
            ++ drop (from + records_area self.entry.records.now) scratch.old) }
    {
        let mut at = from;
        for record in self.records {
            store_bitmap(self.set.stream, *record, at, scratch);
            at += record.size.area();
        }
    }
}
