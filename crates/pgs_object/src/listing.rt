// Testing the chains of a set and listing its objects (01, module 7), from the rows that finding the chains left.
ghost use Rattle.std.specs.Prelude.{◌≡◌, ◌≤◌, ◌<◌, ◌^◌, map, length, sum_by};
ghost use Rattle.pgs_base.specs.Outcome.{accepted, laid, verdict_of};
ghost use Rattle.pgs_reassembly.specs.Tables.{
  total,
  rows_verdict,
  copied_in,
  record_at,
  records_from,
};

use pgs_base::record::FromRecord;
use pgs_base::refusal::Refusal;
use pgs_reassembly::{ChainRow, ObjectRecord};

// Tests each object in first-seen order.
pub(crate) fn check_chains(rows: &[ChainRow]) -> Result<(), Refusal>
    ensures { verdict_of result ≡ rows_verdict rows.now }
{
    for row in rows {
        if !row.closed {
            return Err(Refusal::UnterminatedObject);
        }
        let declared = row.first.ods.object_data_length as usize;
        if declared < 4 {
            return Err(Refusal::DeclaredLengthTooSmall);
        }
        if declared - 4 != row.len {
            return Err(Refusal::DeclaredLengthMismatch);
        }
    }
    Ok(())
}

// How many bytes of the scratch the objects take, wherever they stand.
// Stays beside `joined_total` of pgs_render: that one adds up records, this one rows. One function for both would take an iterator of
// records, with a contract of what it gives, and each caller would still have to make the iterator, which is most of the body.
pub(crate) fn joined_length(rows: &[ChainRow]) -> usize
    requires { sum_by copied_in rows.now < 2 ^ 64 }
    ensures { result ≡ sum_by copied_in rows.now }
{
    rows.iter()
        .map(|row| object_record(*row, 0).joined_len())
        .sum()
}

// The record of a row's object, whose data, if it is copied, stands at place `at` of the scratch.
fn object_record(row: ChainRow, at: usize) -> ObjectRecord
    ensures { result ≡ record_at at row }
{
    let f = row.first;
    ObjectRecord {
        id: f.ods.object_id,
        version: f.ods.object_version_number,
        // A first fragment has dimensions.
        // Stays 0 by 0 and no `unwrap`: the rows of a new table are `ChainRow::default()`, which has no dimensions, so that no field of a row
        // can promise them; `record_at` reads absent dimensions as 0 by 0 too.
        size: f.ods.dimensions.unwrap_or_default(),
        copied: row.copied,
        place: if row.copied { at } else { f.start },
        len: row.len,
    }
}

// Stores a record for each row, one in each cell of the list.
// Stays a `zip` by hand: of a list written through `zip` of its `iter_mut`, std says nothing. Where an object's data stands in the scratch
// is the sum of those before it, which the loop carries along.
pub(crate) fn list_records<R: FromRecord<ObjectRecord>>(rows: &[ChainRow], objects: &mut [R])
    requires rows_bound { total rows.now < 2 ^ 64 }
    requires rows_in_bounds { length rows.now ≤ length objects.old }
    ensures { objects.new ≡ laid accepted (map R.from_record (records_from 0 rows.now)) objects.old }
{
    let mut left = rows.iter();
    let mut at: usize = 0;
    for object in &mut objects[..rows.len()] {
        if let Some(row) = left.next() {
            let record = object_record(*row, at);
            *object = R::from_record(record);
            at += record.joined_len();
        }
    }
}
