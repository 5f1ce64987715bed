// Writing the segments that hold a list: placements, windows, palette entries.
ghost use Rattle.pgs_c_told.specs.Told.{WriteCall, FieldsCall};
ghost use Rattle.pgs_c_writer_lists.specs.Lists.{pcs_cells_writable};
ghost use Rattle.pgs_cells.specs.PcsCells.{pcs_from};
ghost use Rattle.pgs_cells.specs.PdsCells.{pds_from};
ghost use Rattle.pgs_encoding.specs.Encode.{encode};
ghost use Rattle.pgs_writer_base.specs.Answers.{WroteBytes};
ghost use Rattle.pgs_writer_base.specs.Kinds.{pcs_segment, wds_segment, pds_segment};

use pgs_base::refusal::Refusal;
use pgs_c_told::told::told;
use pgs_cells::pcs::pcs_from;
use pgs_cells::pds::pds_from;
use pgs_writer_base::head::Timestamps;
use pgs_writer_lists::pds::encode_pds;
use pgs_writer_lists::wds::encode_wds;
use pgs_writer_pcs::pcs::encode_pcs;

// Writes the PCS of these cells: 35 for a cell that does not fit its field, then as `encode_pcs`.
fn encode_pcs_cells(
    times: Timestamps,
    cells: [u16; 7],
    placements: &[[u16; 10]],
    out: &mut [u8],
) -> Result<usize, Refusal>
    ensures { WroteBytes (pcs_cells_writable times.pts times.dts cells placements.now) (encode (pcs_segment times.pts times.dts (pcs_from cells) placements.now)) out.old out.new result }
{
    encode_pcs(times, pcs_from(cells)?, placements, out)
}

pub fn pgs_encode_pcs(
    pts: u32,
    dts: u32,
    pcs: &[u16; 7],
    placements: &[[u16; 10]],
    out: &mut [u8],
    written: &mut u64,
) -> u8
    ensures { WriteCall (pcs_cells_writable pts dts pcs.now placements.now) (pcs_segment pts dts (pcs_from pcs.now) placements.now) out.old out.new written.old written.new result }
{
    told(
        encode_pcs_cells(Timestamps { pts, dts }, *pcs, placements, out),
        written,
    )
}

pub fn pgs_encode_wds(
    pts: u32,
    dts: u32,
    windows: &[[u16; 5]],
    out: &mut [u8],
    written: &mut u64,
) -> u8
    ensures { FieldsCall (wds_segment pts dts windows.now) out.old out.new written.old written.new result }
{
    told(encode_wds(Timestamps { pts, dts }, windows, out), written)
}

pub fn pgs_encode_pds(
    pts: u32,
    dts: u32,
    pds: &[u8; 2],
    entries: &[[u8; 5]],
    out: &mut [u8],
    written: &mut u64,
) -> u8
    ensures { FieldsCall (pds_segment pts dts (pds_from pds.now) entries.now) out.old out.new written.old written.new result }
{
    told(
        encode_pds(Timestamps { pts, dts }, pds_from(*pds), entries, out),
        written,
    )
}
