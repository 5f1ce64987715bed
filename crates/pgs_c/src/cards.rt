// The card lines of a stream.
ghost use Rattle.pgs_c_set.specs.Cards.{CardsCall};

#[unsafe(no_mangle)]
pub extern "C" fn pgs_cards(stream: &[u8], out: &mut [u8], written: &mut u64) -> u8
    ensures { CardsCall stream.now out.old out.new written.old written.new result }
{
    pgs_c_set::cards::pgs_cards(stream, out, written)
}
