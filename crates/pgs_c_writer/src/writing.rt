// Writing: an ODS, an END, a segment of another kind, and the segments of a stream.
ghost use Rattle.pgs_c_told.specs.Told.{WriteCall, FieldsCall};
ghost use Rattle.pgs_c_writer.specs.Writing.{ods_cells_writable, WritesCall};
ghost use Rattle.pgs_cells_ods.specs.OdsCells.{ods_from};
ghost use Rattle.pgs_encoding.specs.Encode.{encode};
ghost use Rattle.pgs_writer_base.specs.Answers.{WroteBytes};
ghost use Rattle.pgs_writer_base.specs.Kinds.{ods_segment, end_segment, other_segment};

use pgs_base::refusal::Refusal;
use pgs_c_told::told::told;
use pgs_cells_ods::ods::ods_from;
use pgs_stream_writer::stream::write_segments;
use pgs_writer::end::encode_end;
use pgs_writer::ods::encode_ods;
use pgs_writer::other::encode_other;
use pgs_writer_base::head::Timestamps;

// Writes the ODS of these cells: 35 for a cell that does not fit its field, then as `encode_ods`.
fn encode_ods_cells(
    times: Timestamps,
    cells: [u32; 7],
    data: &[u8],
    out: &mut [u8],
) -> Result<usize, Refusal>
    ensures { WroteBytes (ods_cells_writable times.pts times.dts cells «data».now) (encode (ods_segment times.pts times.dts (ods_from cells) «data».now)) out.old out.new result }
{
    encode_ods(times, ods_from(cells)?, data, out)
}

pub fn pgs_encode_ods(
    pts: u32,
    dts: u32,
    ods: &[u32; 7],
    data: &[u8],
    out: &mut [u8],
    written: &mut u64,
) -> u8
    ensures { WriteCall (ods_cells_writable pts dts ods.now «data».now) (ods_segment pts dts (ods_from ods.now) «data».now) out.old out.new written.old written.new result }
{
    told(
        encode_ods_cells(Timestamps { pts, dts }, *ods, data, out),
        written,
    )
}

pub fn pgs_encode_end(pts: u32, dts: u32, out: &mut [u8], written: &mut u64) -> u8
    ensures { FieldsCall (end_segment pts dts) out.old out.new written.old written.new result }
{
    told(encode_end(Timestamps { pts, dts }, out), written)
}

pub fn pgs_encode_other(
    pts: u32,
    dts: u32,
    kind: u8,
    data: &[u8],
    out: &mut [u8],
    written: &mut u64,
) -> u8
    ensures { FieldsCall (other_segment pts dts kind «data».now) out.old out.new written.old written.new result }
{
    told(
        encode_other(Timestamps { pts, dts }, kind, data, out),
        written,
    )
}

pub fn pgs_write_segments(
    stream: &[u8],
    writes: u64,
    out: &mut [u8],
    accepted: &mut u64,
    written: &mut u64,
) -> u8
    ensures { WritesCall stream.now writes out.old out.new accepted.old accepted.new written.old written.new result }
{
    // one answer, told twice: how many writes, and how many bytes
    let answer = write_segments(stream, writes as usize, out);
    told(answer.map(|done| done.accepted), accepted);
    told(answer.map(|done| done.bytes), written)
}
