// The check of a bitmap's run-length code: lines of exactly width pixels, height of them.
ghost use Rattle.std.specs.Prelude.{◌≡◌, ◌+◌, ◌-◌, ◌^◌, ◌≤◌, ◌<◌, length, get_or, eqb};
ghost use Rattle.std.specs.List.{take_while};
ghost use Rattle.pgs_base.specs.Outcome.{verdict_of, unless};
ghost use Rattle.pgs_run_length.specs.Literals.{literals, Literals};
ghost use Rattle.pgs_bitmap_check.specs.Bitmap.{last_line_counts, at_end, reading_of};
ghost use Rattle.pgs_bitmap_check.specs.Progress.{further, verdict_from, IsInside, Ran, Ended, Onward};

use pgs_base::dimensions::Dimensions;
use pgs_base::refusal::Refusal;
use pgs_run_length::code::{Code, Run, eight_literals, long_count, next_code, short_count};

// An unterminated line of width pixels counts if the width is not 0.
fn last_line_counts(width: u16, column: usize) -> bool
    ensures { result ≡ last_line_counts width column }
{
    column == usize::from(width) && width != 0
}

fn line_count(height: u16, lines: usize) -> Result<(), Refusal>
    ensures { verdict_of result ≡ unless 32 (eqb lines height) }
{
    if lines != usize::from(height) {
        return Err(Refusal::LineCountMismatch);
    }
    Ok(())
}

// Where reading stands: the lines ended, the pixels after them, which may be more than the width, and the place of the next code.
// Stays without the data: with it, each step would promise too that the place after it is one of the same data, and both loops would keep that.
// What is left of the data, in the place of `at`, is a length more to count down at each step: tried in Rust, with text-like lines of 1920 by
// 1080, where the check takes 0.133 ms, not 0.114.
#[derive(Clone, Copy, Debug, PartialEq, Eq)]
struct Place {
    lines: usize,
    column: usize,
    at: usize,
}

impl Place {
    // So many pixels further on in the line, after so many bytes.
    fn further(self, pixels: usize, bytes: usize) -> Place
        requires { (self.column + pixels < 2 ^ 64) × (self.at + bytes < 2 ^ 64) }
        ensures { result ≡ further self pixels bytes }
    {
        Place {
            lines: self.lines,
            column: self.column + pixels,
            at: self.at + bytes,
        }
    }

    // The end of the data.
    fn end_of_data(self, size: Dimensions) -> Result<(), Refusal>
        requires { self.lines ≤ size.height }
        ensures { verdict_of result ≡ at_end size.width size.height self.lines self.column }
    {
        if last_line_counts(size.width, self.column) {
            return line_count(size.height, self.lines + 1);
        }
        if self.column != 0 {
            return Err(Refusal::PartialLastLine);
        }
        line_count(size.height, self.lines)
    }

    // Goes on after a run.
    fn pass_run(self, size: Dimensions, run: Run) -> Result<Place, Refusal>
        requires { (self.column ≤ size.width) × (self.at + run.taken < 2 ^ 64) }
        ensures { Ran size self run result }
    {
        if usize::from(size.width) - self.column < run.count {
            return Err(Refusal::RunPastWidth);
        }
        Ok(self.further(run.count, run.taken))
    }

    // Goes on after the end of a line.
    fn end_line(self, size: Dimensions) -> Result<Place, Refusal>
        requires { self.at + 2 < 2 ^ 64 }
        ensures { Ended size self result }
    {
        if self.column != usize::from(size.width) {
            return Err(Refusal::ShortLine);
        }
        if usize::from(size.height) <= self.lines {
            return Err(Refusal::TooManyLines);
        }
        Ok(Place {
            lines: self.lines + 1,
            column: 0,
            at: self.at + 2,
        })
    }

    // Goes on after up to two bytes that are one pixel each.
    fn pixels_at(self, data: &[u8]) -> Place
        requires { (self.at + 2 ≤ length «data».now) × (self.column < 2 ^ 50) }
        ensures { (result.column ≤ self.column + 2) × Onward «data».now self result }
    {
        match (data[self.at], data[self.at + 1]) {
            (0, _) => self,
            (_, 0) => self.further(1, 1),
            _ => self.further(2, 2),
        }
    }

    // Goes on after a byte that is one pixel, and after a short run of a color and pixels behind it, which mostly follow.
    fn stroke_at(self, data: &[u8]) -> Place
        requires { (self.at + 6 ≤ length «data».now) × (self.column < 2 ^ 49) }
        ensures { (result.column ≤ self.column + 128) × Onward «data».now self result }
    {
        if data[self.at] == 0 {
            return self;
        }
        let next = self.at + 1;
        match (data[next], data[next + 1]) {
            (0, second @ 0x80..=0xBF) => self.further(1 + short_count(second), 4).pixels_at(data),
            _ => self.further(1, 1),
        }
    }

    // Goes on after the run of a code that begins with the byte 00, and what mostly follows it, where no code has bytes missing.
    // Stays with the second byte told apart here too, as in `stroke_at` and in `next_code`: by `next_code` a code at a time, as `check_rest`
    // goes on, the check of text-like lines of 1920 by 1080 takes 0.144 ms, not 0.109, and of noisy ones 2.11, not 0.53.
    fn run_at(self, data: &[u8]) -> Place
        requires { (self.at + 9 ≤ length «data».now) × (get_or «data».now self.at 0 ≡ 0) × (get_or «data».now (self.at + 1) 0 ≡ 0 → ⊥) × (self.column < 2 ^ 48) }
        ensures { (self.at < result.at) × (result.column ≤ self.column + 65536) × Onward «data».now self result }
    {
        let second = data[self.at + 1];
        match second {
            0x00..=0x3F => self.further(short_count(second), 2).stroke_at(data),
            0x40..=0x7F => self
                .further(long_count(second, data[self.at + 2]), 3)
                .stroke_at(data),
            0x80..=0xBF => self.further(short_count(second), 3).pixels_at(data),
            0xC0..=0xFF => self.further(long_count(second, data[self.at + 2]), 4),
        }
    }
}

// So many bytes are looked at together: more than a line has pixels.
fn at_once(left: usize) -> usize
    ensures { (result ≤ left) × (result ≤ 65536) }
{
    left.min(65536)
}

// How many of these eights from the first on have no byte 00.
fn full_eights(eights: &[[u8; 8]]) -> usize
    ensures { result ≡ length (take_while (λ eight. literals eight 0 8) eights.now) }
{
    eights
        .iter()
        .take_while(|eight| eight_literals(*eight))
        .count()
}

// So many bytes at the front are one pixel each: counted by eights, up to an eight that has a byte 00.
fn literals_by_eight(data: &[u8]) -> usize
    ensures { (result ≤ length «data».now) × (result ≤ 65536) × Literals «data».now 0 result }
{
    let (eights, _) = data[..at_once(data.len())].as_chunks::<8>();
    8 * full_eights(eights)
}

// So many bytes at the front are one pixel each, of which the first is: one by one up to the fourth, then by eights.
fn literals_in(data: &[u8]) -> usize
    requires { (4 ≤ length «data».now) × (get_or «data».now 0 0 ≡ 0 → ⊥) }
    ensures { (0 < result) × (result ≤ length «data».now) × (result ≤ 65540) × Literals «data».now 0 result }
{
    match data {
        [_, 0, ..] => 1,
        [_, _, 0, ..] => 2,
        [_, _, _, 0, ..] => 3,
        [_, _, _, _, rest @ ..] => 4 + literals_by_eight(rest),
        _ => unreachable!(),
    }
}

// Reads the codes from a place on, a code at a time.
// Stays by data and size, as `check_rle`, since no others have both: a method of a struct of the two would name each through it.
// Stays a loop: each code may be refused, where it is read and where it is counted, and an iterator of the codes would hold the place that
// `place` has.
fn check_rest(data: &[u8], size: Dimensions, from: Place) -> Result<(), Refusal>
    requires { IsInside «data».now size from }
    ensures { verdict_of result ≡ verdict_from «data».now size from }
{
    let mut place = from;
    while let Some(code) = next_code(&data[place.at..])? {
        place = match code {
            Code::Run(run) => place.pass_run(size, run)?,
            Code::LineEnd => place.end_line(size)?,
        };
    }
    place.end_of_data(size)
}

// At each place before this one nine bytes are left, so that no code read in one turn has bytes missing. It is at most 2^32, so that the
// pixels of a line can be counted without a test of each sum.
fn places(length: usize) -> usize
    ensures { (result ≤ length - 8) × (result ≤ 2 ^ 32) }
{
    length.saturating_sub(8).min(0x1_0000_0000)
}

// Reads a bitmap through without storing it. The width is tested at the end of each line and of the data, not for each run, which makes this
// loop fast.
// Stays a loop: a turn reads one code or several, as many as stand there, an end of line may be refused, and `check_rest` goes on from the
// place reached.
pub fn check_rle(data: &[u8], size: Dimensions) -> Result<(), Refusal>
    ensures { verdict_of result ≡ (reading_of «data».now size.width size.height).verdict }
{
    let width = usize::from(size.width);
    let mut place = Place {
        lines: 0,
        column: 0,
        at: 0,
    };
    let limit = places(data.len());
    while place.at < limit {
        place = match (data[place.at], data[place.at + 1]) {
            (0, 0) if width < place.column => return Err(Refusal::RunPastWidth),
            (0, 0) => place.end_line(size)?,
            (0, _) => place.run_at(data),
            _ => {
                let n = literals_in(&data[place.at..]);
                place.further(n, n)
            }
        };
    }
    if width < place.column {
        return Err(Refusal::RunPastWidth);
    }
    check_rest(data, size, place)
}
