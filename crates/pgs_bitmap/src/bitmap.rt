// A bitmap from its run-length code: lines of exactly width pixels, height of them.
ghost use Rattle.pgs_bitmap.specs.Decoding.{Decoding};

use pgs_base::dimensions::Dimensions;
use pgs_base::refusal::Refusal;
use pgs_bitmap_check::bitmap::check_rle;
use pgs_bitmap_store::bitmap::store_rle;

// Reads a bitmap into the first width times height pixels.
// Stays by width and height: its parameters are the published Rust's, which C's call has too.
pub fn decode_rle(data: &[u8], width: u16, height: u16, pixels: &mut [u8]) -> Result<(), Refusal>
    ensures { Decoding «data».now width height pixels.old result pixels.new }
{
    let size = Dimensions { width, height };
    check_rle(data, size)?;
    let need = size.area();
    if pixels.len() < need {
        return Err(Refusal::BufferTooSmall);
    }
    store_rle(data, &mut pixels[..need]);
    Ok(())
}
