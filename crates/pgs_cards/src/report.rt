// What setcards prints for an input (01, 'Bench samples').
ghost use Rattle.std.specs.Prelude.{length};
ghost use Rattle.pgs_base.specs.Outcome.{accepted, outcome, Delivered};
ghost use Rattle.pgs_base.specs.Refusals.{number_of};
ghost use Rattle.pgs_cards.specs.Reports.{refusal_line, report_of};

use crate::cards::put_lines;
use pgs_base::refusal::Refusal;
use pgs_object::object::check_objects;
use pgs_set::display_sets::DisplaySets;

// The longest input that is read.
pub const INPUT_LIMIT: usize = 65536;

// Writes a text to the front of `out`, if it fits.
fn put_text(text: &[u8], out: &mut [u8]) -> Result<usize, Refusal>
    ensures { Delivered accepted (length text.now) text.now out.old out.new (outcome result) }
{
    if out.len() < text.len() {
        return Err(Refusal::BufferTooSmall);
    }
    out[..text.len()].copy_from_slice(text);
    Ok(text.len())
}

// Writes the line of a refusal.
// Stays by hand: of `write!` to lent bytes, std says what it writes where it answers `Ok`, and nowhere that it does so.
fn put_refusal(why: Refusal, out: &mut [u8]) -> Result<usize, Refusal>
    ensures { Delivered accepted (length (refusal_line (number_of why))) (refusal_line (number_of why)) out.old out.new (outcome result) }
{
    let n = why.number();
    let mut text = *b"REFUSED 00\n";
    if n < 10 {
        text[8] = b'0' + n;
        text[9] = b'\n';
        return put_text(&text[..10], out);
    }
    text[8] = b'0' + n / 10;
    text[9] = b'0' + n % 10;
    put_text(&text, out)
}

// Writes what setcards prints for the input `s` to the front of `out`.
pub fn write_report(s: &[u8], out: &mut [u8]) -> Result<usize, Refusal>
    ensures { Delivered accepted (length (report_of s.now)) (report_of s.now) out.old out.new (outcome result) }
{
    if INPUT_LIMIT < s.len() {
        return put_text(b"TOO LONG\n", out);
    }
    match check_objects(s) {
        Ok(count) => put_lines(DisplaySets { stream: s, count }, out),
        Err(why) => put_refusal(why, out),
    }
}
