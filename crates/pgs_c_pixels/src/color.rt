// Colours and palettes.
ghost use Rattle.std.specs.Prelude.{◌≡◌, map};
ghost use Rattle.pgs_color.specs.Bytes.{rgb_of};
ghost use Rattle.pgs_palette.specs.Palette.{applying, entry_of};
ghost use Rattle.pgs_palette.specs.Table.{cleared, laid};
ghost use Rattle.pgs_c_pixels.specs.Pixels.{packed, TableCall};

use pgs_c_told::told::code;
use pgs_color::ycbcr::{Rgb8, ycbcr709_to_rgb};
use pgs_palette::palette::{apply, clear};

// The colour of Y, Cb and Cr as R·65536 + G·256 + B.
pub fn pgs_ycbcr709_to_rgb(y: u8, cb: u8, cr: u8) -> u32
    ensures { result ≡ packed (rgb_of y cb cr) }
{
    let Rgb8 { r, g, b } = ycbcr709_to_rgb(y, cb, cr);
    u32::from_be_bytes([0, r, g, b])
}

// Empties a palette table: 00 00 00 00 for each of the 256 indices.
pub fn pgs_clear_palette(table: &mut [u8]) -> u8
    ensures { TableCall cleared table.old table.new result }
{
    code(clear(table))
}

// Lays the entries of one palette segment over a table, where its id is the named one.
pub fn pgs_apply_palette(entries: &[[u8; 5]], palette_id: u8, named: u8, table: &mut [u8]) -> u8
    ensures { TableCall (laid rgb_of (applying named palette_id (map entry_of entries.now))) table.old table.new result }
{
    code(apply(entries, palette_id, named, table))
}
