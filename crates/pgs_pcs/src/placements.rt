// The placements of a PCS body one after another, with no caller's list (01, module 3).
ghost use Rattle.std.specs.Prelude.{◌≡◌};
ghost use Rattle.std.specs.Iterator.{YieldsFirst, item_count};
ghost use Rattle.pgs_pcs.specs.PcsBody.{placements_of};
ghost use Rattle.pgs_pcs.specs.Placements.{placements_left};

use crate::pcs::{CompositionObject, Pcs};
use pgs_fields::u8_at;
use pgs_records::list::ListRecord;

// The placements that are left: `count` of them, from the front of `rest` on.
#[derive(Clone, Copy, Debug)]
pub struct Placements<'a> {
    rest: &'a [u8],
    count: usize,
}

impl<'a> Placements<'a> {
    // Those of a body, also of one that is cut short.
    pub fn of_body(body: &'a [u8]) -> Placements<'a>
        ensures { placements_left result ≡ placements_of body.now }
    {
        Placements {
            rest: body.get(Pcs::SIZE..).unwrap_or(&[]),
            count: usize::from(u8_at(body, Pcs::COUNT_AT)),
        }
    }
}

impl<'a> Iterator for Placements<'a> {
    type Item = CompositionObject;

    ghost next_gives = { YieldsFirst placements_left };

    ghost remaining = { item_count placements_left };

    fn next(&mut self) -> Option<CompositionObject> {
        if self.count == 0 {
            return None;
        }
        let placement = CompositionObject::read(self.rest);
        let size = CompositionObject::size(self.rest);
        self.rest = self.rest.get(size..).unwrap_or(&[]);
        self.count -= 1;
        Some(placement)
    }
}
