// Reads small bitmaps and prints a line for each: width/height, the data, the answer, and the whole buffer afterwards, of which only the
// first `room` bytes were lent.
#![tactic(auto)]

use pgs_bitmap::bitmap::decode_rle;
use std::io;

fn print_bytes(rt: &impl Print, bytes: &[u8]) -> io::Result<()> {
    for byte in bytes {
        print!(rt; " {byte:02x}")?;
    }
    Ok(())
}

fn show_in(
    rt: &impl Print,
    buffer: &mut [u8],
    data: &[u8],
    width: u16,
    height: u16,
    room: usize,
) -> io::Result<()> {
    if buffer.len() < room {
        return Ok(());
    }
    let answer = decode_rle(data, width, height, &mut buffer[..room]);
    print!(rt; "{width}/{height}")?;
    print_bytes(rt, data)?;
    match answer {
        Ok(_) => {
            print!(rt; ": accepted")?;
        }
        Err(why) => {
            print!(rt; ": refused {why}")?;
        }
    }
    print!(rt; ",")?;
    print_bytes(rt, buffer)?;
    println!(rt; "")
}

fn show(rt: &impl Print, data: &[u8], width: u16, height: u16, room: usize) -> io::Result<()> {
    let mut buffer = [0xEEu8; 8];
    show_in(rt, &mut buffer, data, width, height, room)
}

// Bitmaps, each its data, width and height, into the whole buffer.
fn show_all(rt: &impl Print, bitmaps: &[(&[u8], u16, u16)]) -> io::Result<()> {
    for (data, width, height) in bitmaps {
        show(rt, data, *width, *height, 8)?;
    }
    Ok(())
}

// The samples of 01.
fn samples(rt: &impl Print) -> io::Result<()> {
    show_all(
        rt,
        &[
            (b"\x01\x02\x03", 3, 1),
            (b"\x01\x02\x03\x00\x00", 3, 1),
            (b"\x00\xC0\x03\x09", 3, 1),
            (b"\x00\x40\x00\x00\x82\x07", 2, 1),
            (b"\x00\x00\x00\x00", 0, 2),
            (b"", 0, 1),
            (b"\x05", 2, 1),
            (b"\x05\x05\x05", 2, 1),
            (b"\x00\x00", 2, 1),
            (b"\x05\x05\x00", 2, 1),
            (b"\x05\x05\x00\x00\x06\x06", 2, 1),
            (b"\x05\x05\x00\x00\x06\x06\x00\x00", 2, 1),
        ],
    )
}

// A short line comes before an extra one, and missing bytes before a run that is too long.
fn order(rt: &impl Print) -> io::Result<()> {
    show_all(
        rt,
        &[
            (b"\x05\x05\x00\x00\x00\x00", 2, 1),
            (b"\x00\xBF", 1, 1),
            (b"\x00\xBF\x07", 1, 1),
            (b"\x00", 1, 1),
            (b"\x00\x40", 1, 1),
            (b"\x00\x80", 1, 1),
            (b"\x00\xC0", 1, 1),
            (b"\x00\xC0\x01", 1, 1),
        ],
    )
}

// Runs of no pixels are accepted anywhere, after the last line too.
fn empty_runs(rt: &impl Print) -> io::Result<()> {
    show_all(
        rt,
        &[
            (b"\x05\x00\x40\x00\x06\x00\x00\x00\x80", 2, 1),
            (b"\x05\x00\x40\x00\x06\x00\x00\x00\x80\x07", 2, 1),
            (
                b"\x05\x05\x00\xC0\x00\x08\x00\x00\x00\x40\x00\x00\x80\x07\x00\xC0\x00\x09",
                2,
                1,
            ),
        ],
    )
}

// Width 0 and height 0.
fn empty_sizes(rt: &impl Print) -> io::Result<()> {
    show_all(
        rt,
        &[
            (b"\x00\x40\x00", 0, 1),
            (b"\x00\x40\x00\x00\x00", 0, 1),
            (b"", 0, 0),
            (b"\x00\x00", 0, 0),
            (b"\x00\x80\x07", 0, 0),
            (b"", 5, 0),
            (b"\x01\x01\x01\x01\x01", 5, 0),
            (b"\x01\x01\x01\x01\x01\x00\x00", 5, 0),
        ],
    )
}

// Past the last line.
fn past_the_last_line(rt: &impl Print) -> io::Result<()> {
    show_all(
        rt,
        &[
            (b"\x05\x05\x00\x00\x06", 2, 1),
            (b"\x05\x05\x00\x00\x06\x06", 2, 1),
            (b"\x05\x05\x00\x00\x06\x06\x00\x00", 2, 1),
        ],
    )
}

// A buffer that is too small is found last, and one of the very size is enough.
fn small_buffers(rt: &impl Print) -> io::Result<()> {
    show(rt, b"\x01\x02\x03", 3, 1, 2)?;
    show(rt, b"\x01\x02\x03", 3, 1, 3)?;
    show(rt, b"\x01\x02", 3, 1, 2)?;
    show(rt, b"", 0, 0, 0)?;
    show(rt, b"", 0, 1, 0)?;
    Ok(())
}

fn main(rt: HostRuntime) -> io::Result<()> {
    samples(&rt)?;
    order(&rt)?;
    empty_runs(&rt)?;
    empty_sizes(&rt)?;
    past_the_last_line(&rt)?;
    small_buffers(&rt)?;
    Ok(())
}
