// The placements of a display set painted in order: 01, 'Plane'.
ghost use Rattle.std.specs.Prelude.{◌≡◌, true, None, Some, ◌+◌, ◌*◌, ◌≤◌, length, MatchOption};
ghost use Rattle.pgs_plane.specs.Placing.{image_of, table_color};
ghost use Rattle.pgs_plane.specs.Pictures.{painted_all};
ghost use Rattle.pgs_pcs.specs.Placements.{placements_left};
ghost use Rattle.pgs_rendering.specs.Records.{all_present, bitmap_at, look_at, records_area};

use pgs_base::dimensions::Dimensions;
use pgs_paint::paint::{Image, paint_placement};
use pgs_palette::palette::TABLE_LEN;
use pgs_pcs::placements::Placements;
use pgs_reassembly::ObjectRecord;

// The bitmaps of objects, which stand in a scratch one after another from a place on.
#[derive(Clone, Copy)]
pub(crate) struct StoredBitmaps<'a> {
    pub(crate) records: &'a [ObjectRecord],
    pub(crate) scratch: &'a [u8],
    pub(crate) from: usize,
    ghost room: { from + records_area records.now ≤ length scratch.now },
}

impl<'a> StoredBitmaps<'a> {
    // That of an object id.
    // Stays a loop: where a bitmap stands is the sum of the areas before it, which `position` would have to be followed by.
    fn get(self, id: u16) -> Option<Image<'a>>
        ensures { MatchOption result (bitmap_at self.entry.scratch.now self.entry.from self.entry.records.now id ≡ None)
            (λ i. bitmap_at self.entry.scratch.now self.entry.from self.entry.records.now id ≡ Some (image_of i.size.width i.size.height i.indices.now)) }
    {
        let mut at = self.from;
        for record in self.records {
            let size = record.size;
            let end = at + size.area();
            if record.id == id {
                let indices = &self.scratch[at..end];
                return Some(Image { size, indices });
            }
            at = end;
        }
        None
    }
}

// Paints the placements in order.
pub(crate) fn paint_placements(
    placements: Placements<'_>,
    bitmaps: StoredBitmaps<'_>,
    table: &[u8; TABLE_LEN],
    size: Dimensions,
    plane: &mut [u8],
)
    requires present { all_present bitmaps.records.now (placements_left placements) ≡ true }
    requires in_bounds { 4 * size.width * size.height ≤ length plane.old }
    ensures { plane.new ≡ painted_all (table_color table.now) (look_at bitmaps.entry.scratch.now bitmaps.entry.from bitmaps.entry.records.now)
        (placements_left placements.entry) size.width size.height plane.old }
{
    for placement in placements {
        // the set has its object
        let image = bitmaps.get(placement.object_id).unwrap();
        let _ = paint_placement(placement, image, table, size, plane);
    }
}
