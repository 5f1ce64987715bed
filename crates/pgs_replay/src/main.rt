// Replays recorded inputs: reads them from standard input, calls the library on each, and prints a line for each answer with all of the
// lent memory. rt holds what is printed to the file stdout, which was made from the answers of the published Rust.
//
// An input has a head of 7 bytes: which call, the input's length in 2 bytes, two numbers in 2 bytes each; then its bytes.
#![tactic(auto)]

mod print;
mod read;
mod write;

use pgs_fields::u16_at;
use std::io;
use std::io::{ErrorKind, Read};

// Calls what the letter names; a and b are the numbers of an input.
fn replay(rt: &impl Print, call: u8, a: u16, b: u16, input: &[u8]) -> io::Result<()> {
    match call {
        b'S' => read::segments(rt, input),
        b'P' => read::pcs(rt, input),
        b'W' => read::wds(rt, input),
        b'C' => read::pds(rt, input),
        b'O' => read::ods(rt, input),
        b'G' => read::sets(rt, input),
        b'J' => read::objects(rt, input, a),
        b'L' => read::cards(rt, input),
        b'B' => read::bitmap(rt, input, a, b),
        b'I' => read::plane(rt, input, a),
        b'Y' => read::color(rt, input),
        b'R' => write::segments(rt, input, a),
        b'U' => write::other(rt, input),
        b'F' => write::ods(rt, input),
        b'E' => write::end(rt, input),
        b'p' => write::pcs(rt, input, a),
        b'w' => write::wds(rt, input, a),
        b'c' => write::pds(rt, input, a),
        _ => Ok(()),
    }
}

// Fills a buffer; false where the input ends before.
fn read_full(reader: &mut impl Read, buffer: &mut [u8]) -> io::Result<bool> {
    match reader.read_exact(buffer) {
        Ok(()) => Ok(true),
        Err(e) if e.kind() == ErrorKind::UnexpectedEof => Ok(false),
        Err(e) => Err(e),
    }
}

// Reads one input and replays it; false at the end, or where an input is longer than any that is known.
fn replay_next(rt: &impl Print, reader: &mut impl Read) -> io::Result<bool> {
    let mut head = [0u8; 7];
    if !read_full(reader, &mut head)? {
        return Ok(false);
    }
    let mut buffer = [0u8; 4096];
    let Some(input) = buffer.get_mut(..usize::from(u16_at(&head, 1))) else {
        return Ok(false);
    };
    if !read_full(reader, input)? {
        return Ok(false);
    }
    replay(rt, head[0], u16_at(&head, 3), u16_at(&head, 5), input)?;
    Ok(true)
}

// More inputs than there are: a proved loop has to end.
const INPUT_LIMIT: u64 = 100000;

// Replays all inputs, and says how many.
fn replay_all(rt: &impl Print, reader: &mut impl Read) -> io::Result<u64> {
    for count in 0..INPUT_LIMIT {
        if !replay_next(rt, reader)? {
            return Ok(count);
        }
    }
    Ok(INPUT_LIMIT)
}

fn main(rt: HostRuntime) -> io::Result<()> {
    let count = replay_all(&rt, &mut rt.reader())?;
    println!(rt; "{count} answers")
}
