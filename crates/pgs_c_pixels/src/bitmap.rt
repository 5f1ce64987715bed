// Bitmaps: the run-length code of objects.
ghost use Rattle.pgs_c_pixels.specs.Pixels.{BitmapCall};

use pgs_bitmap::bitmap::decode_rle;
use pgs_c_told::told::code;

// The palette indices of an object's data, width times height of them.
pub fn pgs_decode_rle(data: &[u8], width: u16, height: u16, pixels: &mut [u8]) -> u8
    ensures { BitmapCall «data».now width height pixels.old pixels.new result }
{
    code(decode_rle(data, width, height, pixels))
}
