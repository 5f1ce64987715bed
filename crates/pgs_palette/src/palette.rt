// The palette that painting looks colours up in: a lent table of 1,024 bytes, R, G, B and alpha for each of the 256 indices.
ghost use Rattle.std.specs.Prelude.{◌≡◌, [], ◌∷◌, map, IfOk, take};
ghost use Rattle.pgs_base.specs.Outcome.{outcome, outcome_of, unless, verdict_of};
ghost use Rattle.pgs_color.specs.Bytes.{rgb_of};
ghost use Rattle.pgs_palette.specs.Palette.{entry_of, applying, color_of};
ghost use Rattle.pgs_palette.specs.Table.{laid, cleared, pixel_at, pixel_of, holds, Updates};

use pgs_base::refusal::Refusal;
use pgs_color::ycbcr::{Rgb8, ycbcr709_to_rgb};

// A colour with its alpha, which is not multiplied in.
#[derive(Clone, Copy, Debug, PartialEq, Eq)]
pub struct Rgba8 {
    pub r: u8,
    pub g: u8,
    pub b: u8,
    pub a: u8,
}

// The four bytes of a pixel as a colour.
impl From<[u8; 4]> for Rgba8 {
    ghost from_gives = { λ bytes color. color ≡ pixel_at bytes 0 };

    fn from(bytes: [u8; 4]) -> Self {
        let [r, g, b, a] = bytes;
        Rgba8 { r, g, b, a }
    }
}

// A colour as the four bytes of a pixel.
impl From<Rgba8> for [u8; 4] {
    ghost from_gives = { λ color bytes. bytes ≡ pixel_of color };

    fn from(color: Rgba8) -> Self {
        let Rgba8 { r, g, b, a } = color;
        [r, g, b, a]
    }
}

// Bytes of a table.
pub const TABLE_LEN: usize = 1024;

// A lent table to look each index up in.
#[derive(Clone, Copy, Debug)]
pub struct Table<'a> {
    pub bytes: &'a [u8; TABLE_LEN],
}

impl<'a> Table<'a> {
    // Takes the table at the front of the bytes, unless they are too few.
    pub fn new(bytes: &'a [u8]) -> Result<Table<'a>, Refusal>
        ensures verdict { verdict_of result ≡ unless 34 (holds bytes.now) }
        ensures bytes { IfOk result (λ t. t.bytes.now ≡ take 1024 bytes.now) }
    {
        let bytes = bytes
            .first_chunk::<TABLE_LEN>()
            .ok_or(Refusal::BufferTooSmall)?;
        Ok(Table { bytes })
    }

    // The colour of an index.
    pub fn color(self, index: u8) -> Rgba8
        ensures { result ≡ pixel_at self.entry.bytes.now index }
    {
        let bytes = self.bytes;
        let (colors, _) = bytes.as_chunks::<4>();
        Rgba8::from(colors[usize::from(index)])
    }
}

// The colour of an entry, a record of id, Y, Cr, Cb and alpha. Unlike the Rust's, it takes Cb for Cb and Cr for Cr.
// Stays `to_rgba`, as the Rust names it: `Rgba8::from` takes four bytes as they are, and of an entry's five it would convert them. Their
// number alone would tell the two apart. Nor from a `PaletteEntry` of pgs_pds: an entry is a row of five bytes here, as the C interface lends
// it, and would be made into one only to be taken apart.
pub fn to_rgba(entry: [u8; 5]) -> Rgba8
    ensures { result ≡ color_of rgb_of (entry_of entry) }
{
    let [_, y, cr, cb, a] = entry;
    let Rgb8 { r, g, b } = ycbcr709_to_rgb(y, cb, cr);
    Rgba8 { r, g, b, a }
}

// Stores an entry's colour at its index.
// Stays by index: of a table lent in pieces by `as_chunks_mut`, std does not say what it then holds.
fn put(entry: [u8; 5], table: &mut [u8; TABLE_LEN])
    ensures { table.new ≡ laid rgb_of (entry_of entry ∷ []) table.old }
{
    let at = usize::from(entry[0]) * 4;
    table[at..at + 4].copy_from_slice(&<[u8; 4]>::from(to_rgba(entry)));
}

// Stores the entries' colours in order, so that of two with one id the later stays.
fn lay(entries: &[[u8; 5]], table: &mut [u8; TABLE_LEN])
    ensures { table.new ≡ laid rgb_of (map entry_of entries.now) table.old }
{
    for entry in entries {
        put(*entry, table);
    }
}

// Empties a table: no index has an entry.
// Stays by a slice, as `apply`: their C calls lend any number of bytes, and fewer than a table has are refused here. `get` takes the same.
pub fn clear(table: &mut [u8]) -> Result<(), Refusal>
    ensures { Updates cleared (verdict_of result) table.old table.new }
{
    let front = table
        .first_chunk_mut::<TABLE_LEN>()
        .ok_or(Refusal::BufferTooSmall)?;
    front.fill(0);
    Ok(())
}

// Lays the entries of one palette segment over a table, if the PCS names the segment's palette.
// Stays by entries and two ids, which C's call has, and not by a `Pds`, as the Rust: C lends the entries as rows.
pub fn apply(
    entries: &[[u8; 5]],
    palette_id: u8,
    named: u8,
    table: &mut [u8],
) -> Result<(), Refusal>
    ensures { Updates (laid rgb_of (applying named palette_id (map entry_of entries.now))) (verdict_of result) table.old table.new }
{
    let front = table
        .first_chunk_mut::<TABLE_LEN>()
        .ok_or(Refusal::BufferTooSmall)?;
    if palette_id == named {
        lay(entries, front);
    }
    Ok(())
}

// The colour of an index.
pub fn get(table: &[u8], index: u8) -> Result<Rgba8, Refusal>
    ensures { outcome result ≡ outcome_of (unless 34 (holds table.now)) (pixel_at table.now index) }
{
    Ok(Table::new(table)?.color(index))
}
