// Painting a display set.
ghost use Rattle.std.specs.Prelude.{◌≡◌};
ghost use Rattle.pgs_c_render.specs.Render.{RenderCall, shown_cells};

use pgs_c_told::told::stored;
use pgs_render::render::render;
use pgs_rendering::Shown;

// What is shown, as cells: width, height, PTS.
// Stays a function, as those of `pgs_cells`: neither `Shown` nor the array is a type of this crate, so that no `From` between them may stand
// here; in the crate of `Shown` it could, and there these cells, which only C has, would be out of place.
fn shown_cells(shown: Shown) -> [u64; 3]
    ensures { result ≡ shown_cells shown }
{
    [
        u64::from(shown.size.width),
        u64::from(shown.size.height),
        u64::from(shown.pts),
    ]
}

pub fn pgs_render(
    stream: &[u8],
    set: u64,
    scratch: &mut [u8],
    plane: &mut [u8],
    shown: &mut [u64; 3],
) -> u8
    ensures { RenderCall stream.now set scratch.old scratch.new plane.old plane.new shown.old shown.new result }
{
    stored(
        render(stream, set as usize, scratch, plane).map(shown_cells),
        shown,
    )
}
