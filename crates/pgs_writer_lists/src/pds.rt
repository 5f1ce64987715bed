// The writer of a PDS.
ghost use Rattle.pgs_encoding.specs.Encode.{entry_fields};
ghost use Rattle.pgs_encoding.specs.Layout.{all_fit};
ghost use Rattle.pgs_writer_base.specs.Answers.{Wrote};
ghost use Rattle.pgs_writer_base.specs.Kinds.{pds_segment};
ghost use Rattle.pgs_writer_base.specs.Rows.{entry_from};

use pgs_base::refusal::Refusal;
use pgs_pds::pds::{PaletteEntry, Pds};
use pgs_segment::header::SegmentHeader;
use pgs_views::segment_type::SegmentType;
use pgs_writer_base::body::encode_list;
use pgs_writer_base::head::Timestamps;
use pgs_writer_base::put::put_array;
use pgs_writer_base::rows::{RowWriter, rows_fit};

// The most entries: a body of 65,535 bytes has room for them behind its two numbers.
const MOST: usize = 13106;

// How entries are written.
struct Entries;

impl RowWriter for Entries {
    // Stays a row: the C interface lends rows.
    type Row = [u8; 5];

    ghost fields = { λ row. entry_fields (entry_from row) };

    ghost fits = { λ row. all_fit (entry_fields (entry_from row)) };

    // Its cells are bytes, so it always can.
    fn fits(_row: [u8; 5]) -> bool {
        true
    }

    fn size(_: [u8; 5]) -> u16 {
        PaletteEntry::SIZE as u16
    }

    fn put(out: &mut [u8], row: [u8; 5]) {
        put_array(out, 0, &row);
    }
}

// Writes a PDS: 35 for a body over 65,535 bytes, then 34.
pub fn encode_pds(
    times: Timestamps,
    pds: Pds,
    entries: &[[u8; 5]],
    out: &mut [u8],
) -> Result<usize, Refusal>
    ensures { Wrote (pds_segment times.pts times.dts pds entries.now) out.old out.new result }
{
    // Entries are all of one size and can all be written, so that their number tells both refusals, and their sizes need not be added up: of
    // `rows_fit`, which is true of each, the compiler leaves no loop.
    if MOST < entries.len() {
        return Err(Refusal::NotEncodable);
    }
    let total = SegmentHeader::SIZE + 2 + PaletteEntry::SIZE * entries.len();
    if out.len() < total && rows_fit::<Entries>(entries) {
        return Err(Refusal::BufferTooSmall);
    }
    let numbers = [pds.palette_id, pds.palette_version_number];
    encode_list::<Entries>(times, SegmentType::Pds, &numbers, entries, out)
}
