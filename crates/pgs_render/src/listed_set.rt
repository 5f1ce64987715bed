// Painting a display set whose objects are listed: 34, the joined bytes, 24 to 33, then what cannot fail.
ghost use Rattle.std.specs.Prelude.{◌≡◌, ◌+◌, ◌≤◌, ◌<◌, ◌^◌, length, sum_by};
ghost use Rattle.pgs_base.specs.Bytes.{Bytes};
ghost use Rattle.pgs_base.specs.Outcome.{accepted, outcome, verdict_of};
ghost use Rattle.pgs_color.specs.Bytes.{rgb_of};
ghost use Rattle.pgs_pcs.specs.Placements.{placements_left};
ghost use Rattle.pgs_reassembly.specs.Reassembly.{joined_data};
ghost use Rattle.pgs_rendering.specs.Records.{record_area, records_joined};
ghost use Rattle.pgs_rendering.specs.Rendering.{
  Rendered,
  answer_of,
  composition_of,
  placements_in,
};
ghost use Rattle.pgs_rendering.specs.Steps.{Listed, JoinedAndRead, Ready, Showing};
ghost use Rattle.pgs_segment.specs.OneSegment.{body_at};
ghost use Rattle.pgs_set.specs.Walks.{set_at};

use crate::painting::{StoredBitmaps, paint_placements};
use crate::palette::fill_table;
use pgs_base::dimensions::Dimensions;
use pgs_base::refusal::Refusal;
use pgs_object::object::join_in_set;
use pgs_palette::palette::TABLE_LEN;
use pgs_pcs::pcs::Pcs;
use pgs_pcs::placements::Placements;
use pgs_plane::plane::{clear_plane, plane_bytes};
use pgs_reassembly::ObjectRecord;
use pgs_rendering::Shown;
use pgs_set::open_set::PlacedSet;

// A display set at its place, which 16 to 23 do not refuse, with the records of its objects.
#[derive(Clone, Copy)]
pub(crate) struct ListedSet<'a> {
    pub(crate) set: PlacedSet<'a>,
    // of its objects
    pub(crate) records: &'a [ObjectRecord],
    pub(crate) ghost bytes: { Bytes set.stream.now },
    pub(crate) ghost listed: { Listed (set_at set.stream.now set.place) records.now },
    // what their joined data and their bitmaps take together, a `usize` holds
    pub(crate) ghost low: { records_joined records.now + sum_by record_area records.now < 2 ^ 64 },
}

impl<'a> ListedSet<'a> {
    ghost use Rattle.pgs_render.specs.ListedSets.{display_set, its_objects};

    // The body of its PCS.
    fn body(self) -> &'a [u8]
        ensures { result.now ≡ body_at (display_set self.entry).opening }
    {
        let (pcs, _) = self.set.split_first();
        pcs.body(self.set.stream)
    }

    fn composition(self) -> Pcs
        ensures { result ≡ composition_of (display_set self.entry) }
    {
        Pcs::numbers(self.body())
    }

    pub(crate) fn placements(self) -> Placements<'a>
        ensures { placements_left result ≡ placements_in (display_set self.entry) }
    {
        Placements::of_body(self.body())
    }

    // The size of its plane, and the PTS of its PCS.
    fn answer(self) -> Shown
        ensures { result ≡ answer_of (display_set self.entry) }
    {
        let numbers = self.composition();
        let (pcs, _) = self.set.split_first();
        Shown {
            size: Dimensions {
                width: numbers.width,
                height: numbers.height,
            },
            pts: pcs.header.pts,
        }
    }

    // Joins the data of the objects, for which there is room, then tests 24 to 33.
    fn join_and_read(self, scratch: &mut [u8]) -> Result<(), Refusal>
        requires { length (joined_data (its_objects self)) ≤ length scratch.old }
        ensures { JoinedAndRead (display_set self.entry) scratch.old scratch.new (verdict_of result) }
    {
        let _ = join_in_set(self.set.open(), scratch);
        self.check_content(scratch)
    }

    // Stores the bitmaps after the `joined` bytes of joined data, and paints: nothing here can fail.
    fn show(self, joined: usize, scratch: &mut [u8], plane: &mut [u8])
        requires { Ready (display_set self) joined scratch.old plane.old }
        ensures { Showing (display_set self.entry) scratch.old scratch.new plane.old plane.new }
    {
        self.store_bitmaps(joined, scratch);
        let mut table = [0; TABLE_LEN];
        fill_table(self.set.open(), self.composition().palette_id, &mut table);
        let size = self.answer().size;
        let _ = clear_plane(size, plane);
        let bitmaps = StoredBitmaps {
            records: self.records,
            scratch,
            from: joined,
        };
        paint_placements(self.placements(), bitmaps, &table, size, plane);
    }

    // Paints it.
    pub(crate) fn render(self, scratch: &mut [u8], plane: &mut [u8]) -> Result<Shown, Refusal>
        ensures { Rendered rgb_of accepted (display_set self.entry) (its_objects self.entry)
            scratch.old scratch.new plane.old plane.new (outcome result) }
    {
        let joined = self.joined_total();
        if scratch.len() < joined + self.bitmaps_total() {
            return Err(Refusal::BufferTooSmall);
        }
        let shown = self.answer();
        if plane.len() < plane_bytes(shown.size) {
            return Err(Refusal::BufferTooSmall);
        }
        self.join_and_read(scratch)?;
        self.show(joined, scratch, plane);
        Ok(shown)
    }
}
