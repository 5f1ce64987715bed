// Prints answers, and outputs that were full of EE before.
use pgs_base::refusal::Refusal;
use pgs_stream_writer::stream::Writes;
use std::io;

pub(crate) fn bytes(rt: &impl Print, title: &str, s: &[u8]) -> io::Result<()> {
    print!(rt; "{title}")?;
    for b in s {
        print!(rt; " {b:02x}")?;
    }
    println!(rt)
}

// The length of a part, and whether it is as it was before.
pub(crate) fn unchanged(rt: &impl Print, s: &[u8]) -> io::Result<()> {
    let state = if s.iter().all(|&b| b == 0xEE) {
        "unchanged"
    } else {
        "CHANGED"
    };
    println!(rt; " {} bytes {state}", s.len())
}

// A refusal, and whether the output is as it was.
pub(crate) fn refused(rt: &impl Print, why: Refusal, out: &[u8]) -> io::Result<()> {
    print!(rt; ": refused {why},")?;
    unchanged(rt, out)
}

// What a write gives that is not refused.
pub(crate) trait Given: Drop {
    fn print(self, rt: &impl Print) -> io::Result<()>;
}

// In how many bytes a segment was written.
impl Given for usize {
    fn print(self, rt: &impl Print) -> io::Result<()> {
        print!(rt; ": written {self}")
    }
}

// How many writes of a list were accepted, and in how many bytes.
impl Given for Writes {
    fn print(self, rt: &impl Print) -> io::Result<()> {
        let Writes { accepted, bytes } = self;
        print!(rt; ": accepted {accepted}, written {bytes}")
    }
}

// The answer of a write and the output; where it is refused, whether the output is as it was.
pub(crate) fn written(
    rt: &impl Print,
    title: &str,
    answer: Result<impl Given, Refusal>,
    out: &[u8],
) -> io::Result<()> {
    print!(rt; "{title}")?;
    match answer {
        Err(why) => refused(rt, why, out),
        Ok(given) => {
            given.print(rt)?;
            bytes(rt, ",", out)
        }
    }
}
