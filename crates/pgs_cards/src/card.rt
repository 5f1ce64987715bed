// A card: what one line says of a display set (01, 'Bench samples').
ghost use Rattle.std.specs.Prelude.{◌≡◌, ◌+◌, ◌<◌, ◌^◌};
ghost use Rattle.pgs_cards.specs.Walks.{card_after};

use pgs_pcs::pcs::Pcs;
use pgs_segment::segment::SegmentBody;

#[derive(Clone, Copy, Debug, Default, PartialEq, Eq)]
pub(crate) struct Card {
    // the place of the set's PCS in the stream
    pub place: usize,
    pub pts: u32,
    pub pcs: Pcs,
    // how many objects the set has
    pub objects: usize,
}

impl Card {
    // Takes one more segment: a PCS begins a new card, a first fragment is one object more.
    pub(crate) fn take(&mut self, at: usize, pts: u32, body: SegmentBody)
        requires { self.old.objects + 1 < 2 ^ 64 }
        ensures { self.new ≡ card_after self.old at pts body }
    {
        match body {
            SegmentBody::Pcs(pcs) => {
                *self = Card {
                    place: at,
                    pts,
                    pcs,
                    objects: 0,
                };
            }
            SegmentBody::Ods(ods) => self.objects += usize::from(ods.is_first()),
            _ => {}
        }
    }
}
