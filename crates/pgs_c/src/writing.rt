// Writing: each kind of segment, and the segments of a stream.
ghost use Rattle.pgs_c_told.specs.Told.{WriteCall, FieldsCall};
ghost use Rattle.pgs_c_writer_lists.specs.Lists.{pcs_cells_writable};
ghost use Rattle.pgs_c_writer.specs.Writing.{ods_cells_writable, WritesCall};
ghost use Rattle.pgs_cells_ods.specs.OdsCells.{ods_from};
ghost use Rattle.pgs_cells.specs.PcsCells.{pcs_from};
ghost use Rattle.pgs_cells.specs.PdsCells.{pds_from};
ghost use Rattle.pgs_writer_base.specs.Kinds.{
  pcs_segment,
  wds_segment,
  pds_segment,
  ods_segment,
  end_segment,
  other_segment,
};

#[unsafe(no_mangle)]
pub extern "C" fn pgs_encode_pcs(
    pts: u32,
    dts: u32,
    pcs: &[u16; 7],
    placements: &[[u16; 10]],
    out: &mut [u8],
    written: &mut u64,
) -> u8
    ensures { WriteCall (pcs_cells_writable pts dts pcs.now placements.now) (pcs_segment pts dts (pcs_from pcs.now) placements.now) out.old out.new written.old written.new result }
{
    pgs_c_writer_lists::lists::pgs_encode_pcs(pts, dts, pcs, placements, out, written)
}

#[unsafe(no_mangle)]
pub extern "C" fn pgs_encode_wds(
    pts: u32,
    dts: u32,
    windows: &[[u16; 5]],
    out: &mut [u8],
    written: &mut u64,
) -> u8
    ensures { FieldsCall (wds_segment pts dts windows.now) out.old out.new written.old written.new result }
{
    pgs_c_writer_lists::lists::pgs_encode_wds(pts, dts, windows, out, written)
}

#[unsafe(no_mangle)]
pub extern "C" fn pgs_encode_pds(
    pts: u32,
    dts: u32,
    pds: &[u8; 2],
    entries: &[[u8; 5]],
    out: &mut [u8],
    written: &mut u64,
) -> u8
    ensures { FieldsCall (pds_segment pts dts (pds_from pds.now) entries.now) out.old out.new written.old written.new result }
{
    pgs_c_writer_lists::lists::pgs_encode_pds(pts, dts, pds, entries, out, written)
}

#[unsafe(no_mangle)]
pub extern "C" fn pgs_encode_ods(
    pts: u32,
    dts: u32,
    ods: &[u32; 7],
    data: &[u8],
    out: &mut [u8],
    written: &mut u64,
) -> u8
    ensures { WriteCall (ods_cells_writable pts dts ods.now «data».now) (ods_segment pts dts (ods_from ods.now) «data».now) out.old out.new written.old written.new result }
{
    pgs_c_writer::writing::pgs_encode_ods(pts, dts, ods, data, out, written)
}

#[unsafe(no_mangle)]
pub extern "C" fn pgs_encode_end(pts: u32, dts: u32, out: &mut [u8], written: &mut u64) -> u8
    ensures { FieldsCall (end_segment pts dts) out.old out.new written.old written.new result }
{
    pgs_c_writer::writing::pgs_encode_end(pts, dts, out, written)
}

#[unsafe(no_mangle)]
pub extern "C" fn pgs_encode_other(
    pts: u32,
    dts: u32,
    kind: u8,
    data: &[u8],
    out: &mut [u8],
    written: &mut u64,
) -> u8
    ensures { FieldsCall (other_segment pts dts kind «data».now) out.old out.new written.old written.new result }
{
    pgs_c_writer::writing::pgs_encode_other(pts, dts, kind, data, out, written)
}

#[unsafe(no_mangle)]
pub extern "C" fn pgs_write_segments(
    stream: &[u8],
    writes: u64,
    out: &mut [u8],
    accepted: &mut u64,
    written: &mut u64,
) -> u8
    ensures { WritesCall stream.now writes out.old out.new accepted.old accepted.new written.old written.new result }
{
    pgs_c_writer::writing::pgs_write_segments(stream, writes, out, accepted, written)
}
