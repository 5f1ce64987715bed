// The writer of a PCS.
ghost use Rattle.std.specs.Prelude.{◌≡◌};
ghost use Rattle.std.proofs.lemmas.List.Edits.{sets};
ghost use Rattle.pgs_encoding.specs.Encode.{encode, pcs_fields, placement_fields, crop_fields};
ghost use Rattle.pgs_encoding.specs.Layout.{written};
ghost use Rattle.pgs_pcs.specs.PcsBody.{crop_from};
ghost use Rattle.pgs_writer_base.specs.Answers.{WroteBytes};
ghost use Rattle.pgs_writer_base.specs.Kinds.{pcs_segment, pcs_rows_writable, placement_row_fits};
ghost use Rattle.pgs_writer_base.specs.Rows.{placement_from};

use pgs_base::refusal::Refusal;
use pgs_pcs::pcs::{CompositionObject, Pcs};
use pgs_views::segment_type::SegmentType;
use pgs_writer_base::body::encode_list;
use pgs_writer_base::head::Timestamps;
use pgs_writer_base::put::{ONE_BYTE, put_u8, put_u16};
use pgs_writer_base::rows::RowWriter;

// Stores the crop of a record, if it has one, behind the fields before it.
fn put_crop(out: &mut [u8], p: [u16; 10])
    ensures { out.new ≡ sets out.old 8 (written (crop_fields (crop_from p))) }
{
    let [.., mark, x, y, width, height] = p;
    if mark == 0 {
        return;
    }
    put_u16(out, 8, x);
    put_u16(out, 10, y);
    put_u16(out, 12, width);
    put_u16(out, 14, height);
}

// How placements are written.
struct Placements;

impl RowWriter for Placements {
    // Stays a row: the C interface lends rows.
    type Row = [u16; 10];

    ghost fields = { λ row. placement_fields (placement_from row) };

    ghost fits = { placement_row_fits };

    // A window id and a crop flag take one byte each, and a crop is marked exactly at flag 40.
    fn fits(row: [u16; 10]) -> bool {
        let [_, window, flag, _, _, mark, ..] = row;
        if ONE_BYTE < window {
            return false;
        }
        if ONE_BYTE < flag {
            return false;
        }
        if flag == u16::from(CompositionObject::CROPPED_FLAG) {
            mark == 1
        } else {
            mark == 0
        }
    }

    fn size(row: [u16; 10]) -> u16 {
        let [_, _, _, _, _, mark, ..] = row;
        if mark == 0 {
            CompositionObject::SIZE as u16
        } else {
            CompositionObject::CROPPED_SIZE as u16
        }
    }

    fn put(out: &mut [u8], row: [u16; 10]) {
        let [id, window, flag, x, y, ..] = row;
        put_u16(out, 0, id);
        // Of a cell that does not fit, the low byte.
        let [_, window] = window.to_be_bytes();
        let [_, flag] = flag.to_be_bytes();
        put_u8(out, 2, window);
        put_u8(out, 3, flag);
        put_u16(out, 4, x);
        put_u16(out, 6, y);
        put_crop(out, row);
    }
}

// The numbers, with the count of placements, one after another.
fn pcs_bytes(p: Pcs, count: u8) -> [u8; Pcs::SIZE]
    ensures { result ≡ written (pcs_fields p count) }
{
    let [width1, width2] = p.width.to_be_bytes();
    let [height1, height2] = p.height.to_be_bytes();
    let [number1, number2] = p.composition_number.to_be_bytes();
    [
        width1,
        width2,
        height1,
        height2,
        p.frame_rate,
        number1,
        number2,
        p.composition_state,
        p.palette_update_flag,
        p.palette_id,
        count,
    ]
}

// Writes a PCS: 35, then 34, else the whole segment.
pub fn encode_pcs(
    times: Timestamps,
    pcs: Pcs,
    placements: &[[u16; 10]],
    out: &mut [u8],
) -> Result<usize, Refusal>
    ensures { WroteBytes (pcs_rows_writable times.pts times.dts pcs placements.now) (encode (pcs_segment times.pts times.dts pcs placements.now))
        out.old out.new result }
{
    // The count takes one byte.
    let count = u8::try_from(placements.len())?;
    encode_list::<Placements>(
        times,
        SegmentType::Pcs,
        &pcs_bytes(pcs, count),
        placements,
        out,
    )
}
