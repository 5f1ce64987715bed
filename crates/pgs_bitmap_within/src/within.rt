// Storing the pixels of a bitmap further on in the memory that its data stands in.
ghost use Rattle.std.specs.Prelude.{◌≡◌};
ghost use Rattle.pgs_bitmap_within.specs.Within.{stored_within};

use pgs_bitmap_store::bitmap::store_pixels;

// Stores the pixels of the data at a place of the memory from `at` on, as many as there is room for. Nothing is tested but the room: for a
// caller that has read the bitmap through.
// Stays by place and length, as an object's record has them: its one caller would make a range of both, which `get` makes here.
pub fn store_within(memory: &mut [u8], place: usize, len: usize, at: usize)
    ensures { memory.new ≡ stored_within memory.old place len at }
{
    let Some((front, pixels)) = memory.split_at_mut_checked(at) else {
        return;
    };
    // a sum past the largest number is past the end too
    if let Some(data) = front.get(place..place.saturating_add(len)) {
        store_pixels(data, pixels);
    }
}
