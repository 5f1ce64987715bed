// The calls that write. Outputs are full of 9s before.
use crate::print;
use pgs_base::refusal::Refusal;
use pgs_cells::pcs::pcs_from;
use pgs_cells::pds::pds_from;
use pgs_cells_ods::ods::ods_from;
use pgs_fields::{u16_at, u32_at};
use pgs_stream_writer::stream::write_segments;
use pgs_writer::end::encode_end;
use pgs_writer::ods::encode_ods;
use pgs_writer::other::encode_other;
use pgs_writer_base::head::Timestamps;
use pgs_writer_lists::pds::encode_pds;
use pgs_writer_lists::wds::encode_wds;
use pgs_writer_pcs::pcs::encode_pcs;
use std::{array, io};

// The first segments of a stream, written again.
pub(crate) fn segments(rt: &impl Print, input: &[u8], writes: u16) -> io::Result<()> {
    print::filled(
        rt,
        "writes",
        &mut [9u8; 64],
        |out| write_segments(input, usize::from(writes), out),
    )
}

// The two times that each input of a writer begins with.
fn times(input: &[u8]) -> Timestamps {
    Timestamps {
        pts: u32_at(input, 0),
        dts: u32_at(input, 4),
    }
}

// Cells of 2 bytes each, as many as are wanted.
fn cells<const N: usize>(bytes: &[u8]) -> [u16; N] {
    array::from_fn(|i| u16_at(bytes, 2 * i))
}

// A segment of an unknown kind: its times, the kind's byte, then its data.
pub(crate) fn other(rt: &impl Print, input: &[u8]) -> io::Result<()> {
    if input.len() < 9 {
        return Ok(());
    }
    let kind = input[8];
    let data = &input[9..];
    print::filled(
        rt,
        "write",
        &mut [9u8; 32],
        |out| encode_other(times(input), kind, data, out),
    )
}

// A fragment: its times, its seven cells of 4 bytes each, then its data.
pub(crate) fn ods(rt: &impl Print, input: &[u8]) -> io::Result<()> {
    if input.len() < 36 {
        return Ok(());
    }
    let cells = array::from_fn(|i| u32_at(input, 8 + 4 * i));
    let data = &input[36..];
    print::filled(rt, "write", &mut [9u8; 40], |out| {
        encode_ods(times(input), ods_from(cells)?, data, out)
    })
}

// An END: its times.
pub(crate) fn end(rt: &impl Print, input: &[u8]) -> io::Result<()> {
    if input.len() < 8 {
        return Ok(());
    }
    print::filled(
        rt,
        "write",
        &mut [9u8; 16],
        |out| encode_end(times(input), out),
    )
}

// The line of a call that writes the first so many rows of a list; where it has fewer, nothing is written.
fn rows<R, F>(rt: &impl Print, list: &[R], count: u16, out: &mut [u8], call: F) -> io::Result<()>
where
    F: FnOnce(&[R], &mut [u8]) -> Result<usize, Refusal>,
    requires { F.IsAlwaysCallable call }
{
    if let Some(rows) = list.get(..usize::from(count)) {
        print::answer(rt, "write", call(rows, out))?;
    }
    print::list(rt, out)?;
    println!(rt; "")
}

// A composition: its times, its cells, then room for two placements, of which the first so many are written.
pub(crate) fn pcs(rt: &impl Print, input: &[u8], count: u16) -> io::Result<()> {
    if input.len() < 62 {
        return Ok(());
    }
    let numbers = cells(&input[8..]);
    let list = [cells(&input[22..]), cells(&input[42..])];
    rows(rt, &list, count, &mut [9u8; 60], |placements, out| {
        encode_pcs(times(input), pcs_from(numbers)?, placements, out)
    })
}

// Windows: the times, then room for two, of which the first so many are written.
pub(crate) fn wds(rt: &impl Print, input: &[u8], count: u16) -> io::Result<()> {
    if input.len() < 28 {
        return Ok(());
    }
    let list = [cells(&input[8..]), cells(&input[18..])];
    rows(
        rt,
        &list,
        count,
        &mut [9u8; 34],
        |windows, out| encode_wds(times(input), windows, out),
    )
}

// A palette: its times, its id and version, then room for two entries, of which the first so many are written.
pub(crate) fn pds(rt: &impl Print, input: &[u8], count: u16) -> io::Result<()> {
    if input.len() < 20 {
        return Ok(());
    }
    let numbers = pds_from([input[8], input[9]]);
    let (list, _) = input[10..20].as_chunks::<5>();
    rows(
        rt,
        list,
        count,
        &mut [9u8; 28],
        |entries, out| encode_pds(times(input), numbers, entries, out),
    )
}
