// Fields that no segment can hold are refused by 35, before an output that is too short is by 34.
use crate::show;
use pgs_base::dimensions::Dimensions;
use pgs_ods::ods::Ods;
use pgs_pcs::pcs::Pcs;
use pgs_writer::end::encode_end;
use pgs_writer::ods::encode_ods;
use pgs_writer::other::encode_other;
use pgs_writer_base::head::Timestamps;
use pgs_writer_lists::wds::encode_wds;
use pgs_writer_pcs::pcs::encode_pcs;
use std::io;

const TIMES: Timestamps = Timestamps { pts: 1, dts: 2 };

// The largest declared length.
const LONGEST: u32 = (1 << 24) - 1;

// Writes a PCS with one placement.
fn placement(rt: &impl Print, title: &str, p: [u16; 10], out: &mut [u8]) -> io::Result<()> {
    let pcs = Pcs {
        width: 1920,
        height: 1080,
        frame_rate: 0x10,
        composition_number: 1,
        composition_state: 0x40,
        palette_update_flag: 0,
        palette_id: 2,
    };
    let answer = encode_pcs(TIMES, pcs, &[p], out);
    show::written(rt, title, answer, out)
}

// An output of 40 bytes is long enough for every placement.
fn placements(rt: &impl Print) -> io::Result<()> {
    let window = [5, 256, 0, 100, 980, 0, 0, 0, 0, 0];
    let cropped = [5, 255, 0x40, 100, 980, 1, 1, 2, 3, 4];
    placement(
        rt,
        "crop without flag 40",
        [5, 0, 0, 100, 980, 1, 1, 2, 3, 4],
        &mut [0xEE; 40],
    )?;
    placement(
        rt,
        "crop at flag C0",
        [5, 0, 0xC0, 100, 980, 1, 1, 2, 3, 4],
        &mut [0xEE; 40],
    )?;
    placement(
        rt,
        "flag 40 without crop",
        [5, 0, 0x40, 100, 980, 0, 1, 2, 3, 4],
        &mut [0xEE; 40],
    )?;
    placement(rt, "window id of 256", window, &mut [0xEE; 40])?;
    placement(rt, "the same, no output", window, &mut [])?;
    placement(rt, "crop, into 39", cropped, &mut [0xEE; 39])?;
    placement(rt, "crop, into 40", cropped, &mut [0xEE; 40])
}

fn window_list(rt: &impl Print, title: &str, windows: &[[u16; 5]]) -> io::Result<()> {
    let mut out = [0xEEu8; 23];
    show::written(rt, title, encode_wds(TIMES, windows, &mut out), &out)
}

fn windows(rt: &impl Print) -> io::Result<()> {
    window_list(rt, "WDS, id of 256", &[[256, 100, 980, 16, 8]])?;
    window_list(rt, "256 windows", &[[1, 100, 980, 16, 8]; 256])?;
    window_list(rt, "one window", &[[1, 100, 980, 16, 8]])
}

// Writes a fragment with two data bytes.
fn fragment(
    rt: &impl Print,
    title: &str,
    flag: u8,
    declared: u32,
    dimensions: Option<Dimensions>,
    out: &mut [u8],
) -> io::Result<()> {
    let ods = Ods {
        object_id: 5,
        object_version_number: 3,
        last_in_sequence_flag: flag,
        object_data_length: declared,
        dimensions,
    };
    let answer = encode_ods(TIMES, ods, b"\xAA\xBB", out);
    show::written(rt, title, answer, out)
}

fn fragments(rt: &impl Print) -> io::Result<()> {
    let size = Some(Dimensions {
        width: 16,
        height: 8,
    });
    fragment(
        rt,
        "dimensions at a last fragment",
        0x40,
        6,
        size,
        &mut [0xEE; 26],
    )?;
    fragment(
        rt,
        "dimensions at a middle one",
        0,
        6,
        size,
        &mut [0xEE; 26],
    )?;
    fragment(rt, "none at a first one", 0x80, 6, None, &mut [0xEE; 26])?;
    fragment(
        rt,
        "declared 2^24",
        0xC0,
        LONGEST + 1,
        size,
        &mut [0xEE; 26],
    )?;
    fragment(
        rt,
        "declared 2^24 - 1, into 25",
        0xC0,
        LONGEST,
        size,
        &mut [0xEE; 25],
    )?;
    fragment(
        rt,
        "declared 2^24 - 1, into 26",
        0xC0,
        LONGEST,
        size,
        &mut [0xEE; 26],
    )
}

// Writes a segment of another kind with two data bytes.
fn other(rt: &impl Print, title: &str, kind: u8, out: &mut [u8]) -> io::Result<()> {
    let answer = encode_other(TIMES, kind, b"\xAA\xBB", out);
    show::written(rt, title, answer, out)
}

fn others(rt: &impl Print) -> io::Result<()> {
    other(rt, "unknown kind 16", 0x16, &mut [0xEE; 15])?;
    other(rt, "unknown kind 99, into 14", 0x99, &mut [0xEE; 14])?;
    other(rt, "unknown kind 99, into 15", 0x99, &mut [0xEE; 15])?;
    let mut end = [0xEEu8; 12];
    show::written(rt, "END, into 12", encode_end(TIMES, &mut end), &end)
}

pub(crate) fn samples(rt: &impl Print) -> io::Result<()> {
    placements(rt)?;
    windows(rt)?;
    fragments(rt)?;
    others(rt)
}
