// A long accented sentence: a placement for each letter, and one for each accent, which is cropped out of a sheet of accents.
// The published Rust stores 256 placements as a count of 0, so that a reader loses the sentence.
ghost use Rattle.std.specs.Prelude.{◌<◌};

use crate::show;
use pgs_base::refusal::Refusal;
use pgs_pcs::pcs::Pcs;
use pgs_segment::header::SegmentHeader;
use pgs_segment::segment::Segment;
use pgs_writer_base::head::Timestamps;
use pgs_writer_pcs::pcs::encode_pcs;
use std::{array, io};

// As many as a count of one byte can name.
const MOST: usize = u8::MAX as usize;

// Sign i: every third is an accent.
fn sign(i: u8) -> [u16; 10] {
    let n = u16::from(i);
    if n % 3 == 2 {
        [300, 1, 0x40, 7 * n, 980, 1, 12 * (n % 5), 3, 12, 10]
    } else {
        [n, 1, 0, 7 * n, 1000, 0, 0, 0, 0, 0]
    }
}

fn sentence() -> [[u16; 10]; MOST + 1] {
    array::from_fn(
        |i: usize| -> [u16; 10]
            requires { i < 256 }
        { sign(i as u8) },
    )
}

fn numbers() -> Pcs {
    Pcs {
        width: 1920,
        height: 1080,
        frame_rate: 0x10,
        composition_number: 513,
        composition_state: 0x80,
        palette_update_flag: 0x80,
        palette_id: 7,
    }
}

fn print_numbers(rt: &impl Print, p: Pcs) -> io::Result<()> {
    println!(rt;
        ", numbers {} {} {} {} {} {} {}",
        p.width,
        p.height,
        p.frame_rate,
        p.composition_number,
        p.composition_state,
        p.palette_update_flag,
        p.palette_id
    )
}

// The head of the segment, and how many bytes it takes.
fn read_head(rt: &impl Print, bytes: &[u8]) -> io::Result<()> {
    match Segment::parse(bytes) {
        Err(why) => print!(rt; "read back: refused {why}"),
        Ok(s) => {
            let head = s.header;
            print!(rt;
                "read back: PTS {}, DTS {}, kind {:02x}, used {}",
                head.pts, head.dts, head.segment_type, s.used
            )
        }
    }
}

// The numbers and the placements, which are compared with those that were written.
fn read_body(rt: &impl Print, body: &[u8], wanted: &[[u16; 10]]) -> io::Result<()> {
    let mut found = [[0u16; 10]; MOST];
    match Pcs::parse(body, &mut found) {
        Err(why) => print!(rt; ": refused {why}"),
        Ok((pcs, n)) => {
            print_numbers(rt, pcs)?;
            let state = if n == wanted.len() && found.starts_with(wanted) {
                "all equal"
            } else {
                "NOT equal"
            };
            println!(rt; "read back {n} placements, {state}")
        }
    }
}

// What was written is read again; what lies behind it is as it was.
fn read_back(
    rt: &impl Print,
    answer: Result<usize, Refusal>,
    out: &[u8],
    wanted: &[[u16; 10]],
) -> io::Result<()> {
    match answer {
        Err(why) => show::refused(rt, why, out),
        Ok(n) => {
            if n < SegmentHeader::SIZE || out.len() < n {
                return Ok(());
            }
            print!(rt; ": written {n} bytes, behind them")?;
            show::unchanged(rt, &out[n..])?;
            read_head(rt, out)?;
            read_body(rt, &out[SegmentHeader::SIZE..n], wanted)
        }
    }
}

// Writes the signs, and reads them back.
fn write_signs(rt: &impl Print, title: &str, signs: &[[u16; 10]]) -> io::Result<()> {
    let mut out = [0xEEu8; 2800];
    print!(rt; "{title}")?;
    let times = Timestamps {
        pts: 90000,
        dts: 45000,
    };
    let answer = encode_pcs(times, numbers(), signs, &mut out);
    read_back(rt, answer, &out, signs)
}

pub(crate) fn samples(rt: &impl Print) -> io::Result<()> {
    let signs = sentence();
    write_signs(rt, "255 placements", &signs[..MOST])?;
    write_signs(rt, "256 placements", &signs)
}
