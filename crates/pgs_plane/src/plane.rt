// A plane of pixels, R, G, B and alpha, row by row.
ghost use Rattle.std.specs.Prelude.{◌≡◌, ◌*◌};
ghost use Rattle.pgs_base.specs.Outcome.{verdict_of};
ghost use Rattle.pgs_plane.specs.Calls.{Clears};

use pgs_base::dimensions::Dimensions;
use pgs_base::refusal::Refusal;

// The bytes of a plane: four for each pixel.
pub fn plane_bytes(size: Dimensions) -> usize
    ensures { result ≡ 4 * size.width * size.height }
{
    4 * size.area()
}

// Makes every pixel of a plane 00 00 00 00.
// Stays by size and bytes, as painting does: a struct of both would hold the lent bytes. Lent to a call, it would need the promise that it holds
// the same loan still; without that, tried, nothing is proved of the plane after the call. By value, a contract could name what the bytes then
// hold by number alone, as `plane.exit.1.0.now`.
pub fn clear_plane(size: Dimensions, plane: &mut [u8]) -> Result<(), Refusal>
    ensures { Clears size.width size.height plane.old (verdict_of result) plane.new }
{
    let need = plane_bytes(size);
    if plane.len() < need {
        return Err(Refusal::BufferTooSmall);
    }
    plane[..need].fill(0);
    Ok(())
}
