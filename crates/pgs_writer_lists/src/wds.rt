// The writer of a WDS.
ghost use Rattle.pgs_encoding.specs.Encode.{window_fields};
ghost use Rattle.pgs_encoding.specs.Layout.{all_fit};
ghost use Rattle.pgs_writer_base.specs.Answers.{Wrote};
ghost use Rattle.pgs_writer_base.specs.Kinds.{wds_segment};
ghost use Rattle.pgs_writer_base.specs.Rows.{window_from};

use pgs_base::refusal::Refusal;
use pgs_views::segment_type::SegmentType;
use pgs_wds::wds::Window;
use pgs_writer_base::body::encode_list;
use pgs_writer_base::head::Timestamps;
use pgs_writer_base::put::{ONE_BYTE, put_u8, put_u16};
use pgs_writer_base::rows::RowWriter;

// How windows are written.
struct Windows;

impl RowWriter for Windows {
    // Stays a row: the C interface lends rows.
    type Row = [u16; 5];

    ghost fields = { λ row. window_fields (window_from row) };

    ghost fits = { λ row. all_fit (window_fields (window_from row)) };

    // An id takes one byte.
    fn fits(row: [u16; 5]) -> bool {
        let [id, ..] = row;
        id <= ONE_BYTE
    }

    fn size(_: [u16; 5]) -> u16 {
        Window::SIZE as u16
    }

    fn put(out: &mut [u8], row: [u16; 5]) {
        let [id, x, y, width, height] = row;
        // Of a cell that does not fit, the low byte.
        let [_, id] = id.to_be_bytes();
        put_u8(out, 0, id);
        put_u16(out, 1, x);
        put_u16(out, 3, y);
        put_u16(out, 5, width);
        put_u16(out, 7, height);
    }
}

// Writes a WDS: 35, then 34, else the whole segment.
pub fn encode_wds(times: Timestamps, windows: &[[u16; 5]], out: &mut [u8]) -> Result<usize, Refusal>
    ensures { Wrote (wds_segment times.pts times.dts windows.now) out.old out.new result }
{
    // The count takes one byte.
    let count = u8::try_from(windows.len())?;
    encode_list::<Windows>(times, SegmentType::Wds, &[count], windows, out)
}
