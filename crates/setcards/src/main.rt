// Prints a line for each display set of the stream on standard input (01, 'Bench samples').
#![tactic(auto)]

ghost use Rattle.std.specs.Prelude.{◌≡◌, ◌≤◌, length, IfOk};
ghost use Rattle.pgs_cards.specs.Reports.{input_limit};
ghost use Rattle.setcards.specs.Printing.{Reported};

use pgs_cards::report::{INPUT_LIMIT, write_report};
use std::io;
use std::io::Read;

// Writes what is printed for an input to the front of `out`, which is never too short: it is as long as the longest input.
fn report(input: &[u8], out: &mut [u8]) -> usize
    requires { length out.old ≡ input_limit }
    ensures { Reported input.now out.old out.new result }
{
    // the text fits
    write_report(input, out).unwrap()
}

// Reads until the buffer is full or the input ends, and says how many bytes were read.
fn read_full(reader: &mut impl Read, buf: &mut [u8]) -> io::Result<usize>
    ensures { IfOk result (λ n. n ≤ length buf.new) }
{
    let mut got: usize = 0;
    // Stays a loop: `read_to_end` needs a heap, and `read_exact` does not say how much came of an input that ends before.
    while got < buf.len() {
        let n = reader.read(&mut buf[got..])?;
        if n == 0 {
            return Ok(got);
        }
        got += n;
    }
    Ok(got)
}

fn main(rt: HostRuntime) -> io::Result<()> {
    // one byte more than the longest input, so that a longer one is noticed
    let mut input = [0u8; INPUT_LIMIT + 1];
    let got = read_full(&mut rt.reader(), &mut input)?;
    let mut out = [0u8; INPUT_LIMIT];
    let count = report(&input[..got], &mut out);
    rt.write_all(&out[..count])
}
