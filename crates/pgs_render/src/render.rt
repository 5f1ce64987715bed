// Painting a display set: 01, module 10.
ghost use Rattle.std.specs.Prelude.{◌≡◌};
ghost use Rattle.pgs_base.specs.Outcome.{outcome};
ghost use Rattle.pgs_color.specs.Bytes.{rgb_of};
ghost use Rattle.pgs_reassembly.specs.Objects.{objects_of, objects_verdict};
ghost use Rattle.pgs_set.specs.Sets.{set_number};
ghost use Rattle.pgs_rendering.specs.Rendering.{Rendered};

use crate::listed_set::ListedSet;
use pgs_base::refusal::Refusal;
use pgs_object::object::{OBJECT_LIMIT, list_in_set};
use pgs_reassembly::ObjectRecord;
use pgs_rendering::Shown;
use pgs_set::set::placed_set;

// Paints set number `set` of a stream: the joined data and the bitmaps fill the scratch, the pixels the plane, each from the front.
pub fn render(s: &[u8], set: usize, scratch: &mut [u8], plane: &mut [u8]) -> Result<Shown, Refusal>
    ensures { Rendered rgb_of (objects_verdict set s.now) (set_number set s.now) (objects_of set s.now)
        scratch.old scratch.new plane.old plane.new (outcome result) }
{
    let set = placed_set(s, set)?;
    let mut list = [ObjectRecord::default(); OBJECT_LIMIT];
    let n = list_in_set(set.open(), &mut list)?;
    let listed = ListedSet {
        set,
        records: &list[..n],
    };
    listed.render(scratch, plane)
}
