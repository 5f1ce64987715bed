// The card lines of a stream.
ghost use Rattle.pgs_c_set.specs.Cards.{CardsCall};

use pgs_c_told::told::told;
use pgs_cards::cards::write_cards;

pub fn pgs_cards(stream: &[u8], out: &mut [u8], written: &mut u64) -> u8
    ensures { CardsCall stream.now out.old out.new written.old written.new result }
{
    told(write_cards(stream, out), written)
}
