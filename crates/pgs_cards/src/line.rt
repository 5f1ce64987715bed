// The line of a card: upper-case hexadecimal digits and a line feed (01, 'Bench samples').
ghost use Rattle.std.specs.Prelude.{◌≡◌, ◌+◌, ◌≤◌, ◌<◌, ◌++◌, length, take, drop};
ghost use Rattle.pgs_cards.specs.Cards.{digit_of, hex, line_of, line_length};

use crate::card::Card;

// How many bytes a line has, its line feed included.
pub(crate) const LINE: usize = 35;

// The upper-case hexadecimal digit.
fn digit(n: u64) -> u8
    requires { n < 16 }
    ensures { result ≡ digit_of n }
{
    let digit = char::from_digit(n as u32, 16).unwrap();
    digit.to_ascii_uppercase() as u8
}

// Fills `out` with the last digits of a number.
// Stays by hand: of `write!` with `{:08X}`, std says what it writes where it answers `Ok`, and nowhere that it does so.
// Stays by index: of a slice that is written through `iter_mut().rev()`, std does not say what it then holds.
fn fill_hex(out: &mut [u8], n: u64)
    ensures { out.new ≡ hex (length out.old) n }
{
    let mut left = n;
    for i in (0..out.len()).rev() {
        out[i] = digit(left % 16);
        left /= 16;
    }
}

// Writes the last w digits of a number at `at`.
fn put_hex(out: &mut [u8], at: usize, w: usize, n: u64)
    requires { at + w ≤ length out.old }
    ensures { out.new ≡ take at out.old ++ (hex w n ++ drop (at + w) out.old) }
{
    let end = at + w;
    fill_hex(&mut out[at..end], n);
}

// Writes the line of a card; `out` is exactly as long.
// Stays eight calls: a loop over pairs of width and number would count the places by hand, and name no field's place.
pub(crate) fn put_line(out: &mut [u8], card: Card)
    requires { length out.old ≡ line_length }
    ensures { out.new ≡ line_of card }
{
    put_hex(out, 0, 8, card.place as u64);
    put_hex(out, 8, 8, u64::from(card.pts));
    put_hex(out, 16, 4, u64::from(card.pcs.composition_number));
    put_hex(out, 20, 2, u64::from(card.pcs.composition_state));
    put_hex(out, 22, 2, u64::from(card.pcs.palette_id));
    put_hex(out, 24, 2, card.objects as u64);
    put_hex(out, 26, 4, u64::from(card.pcs.width));
    put_hex(out, 30, 4, u64::from(card.pcs.height));
    out[34] = b'\n';
}
