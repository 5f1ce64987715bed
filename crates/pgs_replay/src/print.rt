// Prints answers, records and bytes.
use pgs_base::refusal::Refusal;
use pgs_cells::pcs::pcs_cells;
use pgs_cells::pds::pds_cells;
use pgs_cells_ods::ods::ods_cells;
use pgs_ods::ods::Ods;
use pgs_palette::palette::Rgba8;
use pgs_pcs::pcs::Pcs;
use pgs_pds::pds::Pds;
use pgs_records::BodyList;
use pgs_rendering::Shown;
use pgs_stream_writer::stream::Writes;
use std::fmt::Display;
use std::io;

// What a call gives that is not refused.
// Stays beside the `Given` of `writer_samples`: the two print in other words, so that a trait in a library would have no impl in common.
pub(crate) trait Given: Drop {
    fn print(self, rt: &impl Print) -> io::Result<()>;
}

impl Given for () {
    fn print(self, _rt: &impl Print) -> io::Result<()> {
        Ok(())
    }
}

// How many records or bytes were stored.
impl Given for usize {
    fn print(self, rt: &impl Print) -> io::Result<()> {
        print!(rt; " {self}")
    }
}

// How many segments were written, and in how many bytes.
impl Given for Writes {
    fn print(self, rt: &impl Print) -> io::Result<()> {
        let Writes { accepted, bytes } = self;
        print!(rt; " {accepted} {bytes}")
    }
}

// A plane's width and height, and its PTS.
impl Given for Shown {
    fn print(self, rt: &impl Print) -> io::Result<()> {
        let Shown { size, pts } = self;
        print!(rt; " {} {} {pts}", size.width, size.height)
    }
}

impl Given for Pcs {
    fn print(self, rt: &impl Print) -> io::Result<()> {
        record(rt, &pcs_cells(self))
    }
}

impl Given for Pds {
    fn print(self, rt: &impl Print) -> io::Result<()> {
        record(rt, &pds_cells(self))
    }
}

// The numbers of a body, and how many records were stored.
impl<N: Given> Given for (N, usize) {
    fn print(self, rt: &impl Print) -> io::Result<()> {
        let (numbers, records) = self;
        print!(rt; " {records}")?;
        numbers.print(rt)
    }
}

// The numbers of an ODS, and where its data stand.
impl Given for (Ods, BodyList) {
    fn print(self, rt: &impl Print) -> io::Result<()> {
        let (ods, data) = self;
        record(rt, &ods_cells(ods, data))
    }
}

// A colour of a table.
impl Given for Rgba8 {
    fn print(self, rt: &impl Print) -> io::Result<()> {
        let Rgba8 { r, g, b, a } = self;
        record(rt, &[r, g, b, a])
    }
}

// What a call answered: the word and what it gave, or why it was refused.
pub(crate) fn outcome(
    rt: &impl Print,
    word: &str,
    answer: Result<impl Given, Refusal>,
) -> io::Result<()> {
    match answer {
        Ok(given) => {
            print!(rt; "{word}")?;
            given.print(rt)
        }
        Err(why) => print!(rt; " refused {why}"),
    }
}

// The name of a call, and what it answered.
pub(crate) fn answer(
    rt: &impl Print,
    name: &str,
    answer: Result<impl Given, Refusal>,
) -> io::Result<()> {
    print!(rt; "{name}")?;
    outcome(rt, " accepted", answer)
}

// The numbers of a record.
fn record(rt: &impl Print, numbers: &[impl Display]) -> io::Result<()> {
    print!(rt; ",")?;
    for number in numbers {
        print!(rt; " {number}")?;
    }
    Ok(())
}

// What a list holds that a caller lends.
pub(crate) trait Lent: Sized {
    fn print(rt: &impl Print, list: &[Self]) -> io::Result<()>;
}

// All bytes of a buffer, in hexadecimal.
impl Lent for u8 {
    fn print(rt: &impl Print, list: &[u8]) -> io::Result<()> {
        print!(rt; ", ")?;
        for byte in list {
            print!(rt; "{byte:02x}")?;
        }
        Ok(())
    }
}

// The records of a list.
impl<N: Display, const LEN: usize> Lent for [N; LEN] {
    fn print(rt: &impl Print, list: &[[N; LEN]]) -> io::Result<()> {
        for numbers in list {
            record(rt, numbers)?;
        }
        Ok(())
    }
}

// All that a list or a buffer holds after a call.
pub(crate) fn list<T: Lent>(rt: &impl Print, list: &[T]) -> io::Result<()> {
    T::print(rt, list)
}

// The line of a call that fills a list or a buffer: its answer, then what was lent.
pub(crate) fn filled<T: Lent, G: Given, F>(
    rt: &impl Print,
    name: &str,
    lent: &mut [T],
    call: F,
) -> io::Result<()>
where
    F: FnOnce(&mut [T]) -> Result<G, Refusal>,
    requires { F.IsAlwaysCallable call }
{
    answer(rt, name, call(lent))?;
    list(rt, lent)?;
    println!(rt; "")
}
