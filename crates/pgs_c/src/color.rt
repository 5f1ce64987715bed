// Colours and palettes.
ghost use Rattle.std.specs.Prelude.{◌≡◌, map};
ghost use Rattle.pgs_color.specs.Bytes.{rgb_of};
ghost use Rattle.pgs_palette.specs.Palette.{applying, entry_of};
ghost use Rattle.pgs_palette.specs.Table.{cleared, laid};
ghost use Rattle.pgs_c_pixels.specs.Pixels.{packed, TableCall};

// The colour of Y, Cb and Cr as R·65536 + G·256 + B.
#[unsafe(no_mangle)]
pub extern "C" fn pgs_ycbcr709_to_rgb(y: u8, cb: u8, cr: u8) -> u32
    ensures { result ≡ packed (rgb_of y cb cr) }
{
    pgs_c_pixels::color::pgs_ycbcr709_to_rgb(y, cb, cr)
}

// Empties a palette table: 00 00 00 00 for each of the 256 indices.
#[unsafe(no_mangle)]
pub extern "C" fn pgs_clear_palette(table: &mut [u8]) -> u8
    ensures { TableCall cleared table.old table.new result }
{
    pgs_c_pixels::color::pgs_clear_palette(table)
}

// Lays the entries of one palette segment over a table, where its id is the named one.
#[unsafe(no_mangle)]
pub extern "C" fn pgs_apply_palette(
    entries: &[[u8; 5]],
    palette_id: u8,
    named: u8,
    table: &mut [u8],
) -> u8
    ensures { TableCall (laid rgb_of (applying named palette_id (map entry_of entries.now))) table.old table.new result }
{
    pgs_c_pixels::color::pgs_apply_palette(entries, palette_id, named, table)
}
