// A segment whose body is some numbers, then data or a list.
ghost use Rattle.std.specs.Prelude.{◌≡◌, ◌+◌, ◌++◌, leb, length};
ghost use Rattle.std.proofs.lemmas.List.Edits.{sets};
ghost use Rattle.pgs_base.specs.Outcome.{outcome, outcome_of, unless, needing, pick};
ghost use Rattle.pgs_encoding.specs.Encode.{head_fields};
ghost use Rattle.pgs_encoding.specs.Layout.{written};
ghost use Rattle.pgs_views.specs.Kinds.{raw_of};
ghost use Rattle.pgs_writer_base.specs.Answers.{WroteBytes};
ghost use Rattle.pgs_writer_base.specs.Bodies.{is_body_size, list_body, list_fits, segment_bytes, front_after};

use crate::head::{Timestamps, put_head};
use crate::put::put_bytes;
use crate::rows::{RowWriter, put_rows, rows_fit};
use pgs_base::refusal::Refusal;
use pgs_segment::header::SegmentHeader;
use pgs_views::segment_type::SegmentType;

// Stores the head of a body of this size and the body's numbers, and answers how many bytes the segment takes; 34 without room for it.
// Stays by times, kind and numbers, as the two below: each writer would make a struct of the three for its one call. A `SegmentHeader` in
// their place has the kind as a byte, and the size, which only the two below know: both would make one, and each promise would speak of
// its byte as the kind's.
fn put_front(
    out: &mut [u8],
    times: Timestamps,
    kind: SegmentType,
    size: u16,
    numbers: &[u8],
) -> Result<usize, Refusal>
    ensures result_value { outcome result ≡ outcome_of (needing (13 + size) (length out.old)) (13 + size) }
    ensures out_after { out.new ≡ pick (leb (13 + size) (length out.old)) (front_after times kind size numbers.now out.old) out.old }
{
    let total = SegmentHeader::SIZE + usize::from(size);
    if out.len() < total {
        return Err(Refusal::BufferTooSmall);
    }
    put_head(out, times, kind, size);
    put_bytes(out, SegmentHeader::SIZE, numbers);
    Ok(total)
}

// Writes a segment of this kind and data: 35 for a body over 65,535 bytes, then 34.
pub fn encode_data(
    times: Timestamps,
    kind: SegmentType,
    numbers: &[u8],
    data: &[u8],
    out: &mut [u8],
) -> Result<usize, Refusal>
    ensures { WroteBytes (is_body_size (length (numbers.now ++ «data».now))) (segment_bytes times kind (numbers.now ++ «data».now))
        out.old out.new result }
{
    let size = u16::try_from(numbers.len() + data.len())?;
    let total = put_front(out, times, kind, size, numbers)?;
    put_bytes(out, SegmentHeader::SIZE + numbers.len(), data);
    Ok(total)
}

// The size of a body of these numbers and rows: 35 where its field cannot hold it.
fn body_size<W: RowWriter>(numbers: &[u8], rows: &[W::Row]) -> Result<u16, Refusal>
    ensures { outcome result
        ≡ outcome_of (unless 35 (is_body_size (length (list_body W.fields numbers.now rows.now)))) (length (list_body W.fields numbers.now rows.now)) }
{
    let first = u16::try_from(numbers.len())?;
    rows.iter()
        .try_fold(first, |size, row| size.checked_add(W::size(*row)))
        .ok_or(Refusal::NotEncodable)
}

// Writes a segment of this kind and list: 35 for rows that cannot be written or a body over 65,535 bytes, then 34.
pub fn encode_list<W: RowWriter>(
    times: Timestamps,
    kind: SegmentType,
    numbers: &[u8],
    rows: &[W::Row],
    out: &mut [u8],
) -> Result<usize, Refusal>
    ensures { WroteBytes (list_fits W.fields W.fits numbers.now rows.now) (segment_bytes times kind (list_body W.fields numbers.now rows.now))
        out.old out.new result }
{
    if !rows_fit::<W>(rows) {
        return Err(Refusal::NotEncodable);
    }
    let size = body_size::<W>(numbers, rows)?;
    let total = put_front(out, times, kind, size, numbers)?;
    put_rows::<W>(out, SegmentHeader::SIZE + numbers.len(), rows);
    Ok(total)
}
