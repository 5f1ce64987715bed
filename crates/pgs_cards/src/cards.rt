// The card lines of a stream (01, 'Bench samples').
ghost use Rattle.std.specs.Prelude.{◌≡◌, ◌≤◌, length};
ghost use Rattle.pgs_base.specs.Outcome.{accepted, outcome, laid, Delivered};
ghost use Rattle.pgs_cards.specs.Cards.{card_lines, cards_verdict};

use crate::card::Card;
use crate::line::{LINE, put_line};
use pgs_base::refusal::Refusal;
use pgs_object::object::check_objects;
use pgs_segment::segment::SegmentBody;
use pgs_set::display_sets::DisplaySets;
use pgs_stream::segments::Segments;

// In a stream of so many bytes every place has eight digits.
pub const PLACE_LIMIT: usize = 4294967296;

// Writes the lines of the sets: one walk over the segments of their stream.
fn fill_lines(sets: DisplaySets<'_>, out: &mut [u8])
    requires { length (card_lines sets.stream.now) ≤ length out.old }
    ensures { out.new ≡ laid accepted (card_lines sets.entry.stream.now) out.old }
{
    let s = sets.stream;
    let mut card = Card::default();
    // Stays a place: of an output that is written through `chunks_exact_mut`, std does not say what it then holds
    let mut k: usize = 0;
    for segment in (Segments { stream: s, at: 0 }) {
        let kind = segment.header.kind();
        if kind.is_end() {
            let end = k + LINE;
            put_line(&mut out[k..end], card);
            k = end;
        } else {
            let bytes = segment.body(s);
            // the stream was accepted, so its bodies are
            let (body, _) = SegmentBody::parse(kind, bytes).unwrap();
            card.take(segment.at, segment.header.pts, body);
        }
    }
}

// The same where there is room.
pub(crate) fn put_lines(sets: DisplaySets<'_>, out: &mut [u8]) -> Result<usize, Refusal>
    ensures { let lines = card_lines sets.entry.stream.now in
        Delivered accepted (length lines) lines out.old out.new (outcome result) }
{
    let need = sets.count * LINE;
    if out.len() < need {
        return Err(Refusal::BufferTooSmall);
    }
    fill_lines(sets, out);
    Ok(need)
}

// Writes a line for each display set of a stream to the front of `out`, if the objects of every set reassemble.
pub fn write_cards(s: &[u8], out: &mut [u8]) -> Result<usize, Refusal>
    ensures { Delivered (cards_verdict s.now) (length (card_lines s.now)) (card_lines s.now) out.old out.new (outcome result) }
{
    let count = check_objects(s)?;
    if PLACE_LIMIT < s.len() {
        return Err(Refusal::NotEncodable);
    }
    put_lines(DisplaySets { stream: s, count }, out)
}
