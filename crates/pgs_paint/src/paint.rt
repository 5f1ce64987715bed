// One placement painted onto a plane of pixels, R, G, B and alpha, row by row.
ghost use Rattle.std.specs.Prelude.{◌≡◌, List, ℕ, ◌+◌, ◌*◌, ◌<◌, length, get_or, take};
ghost use Rattle.pgs_base.specs.Outcome.{verdict_of};
ghost use Rattle.pgs_plane.specs.Strips.{strip};
ghost use Rattle.pgs_plane.specs.Placing.{image_of, part_of, table_color};
ghost use Rattle.pgs_plane.specs.Calls.{Paints};
ghost use Rattle.pgs_paint.specs.Clipping.{Visible, Bounds, Clipped, Paintable, RowsPainted};

use pgs_base::dimensions::Dimensions;
use pgs_base::refusal::Refusal;
use pgs_palette::palette::Table;
use pgs_pcs::pcs::{CompositionObject, CompositionObjectCrop};
use pgs_plane::plane::plane_bytes;

// An object's bitmap: palette indices, row by row.
#[derive(Clone, Copy, Debug)]
pub struct Image<'a> {
    pub size: Dimensions,
    pub indices: &'a [u8],
}

// One axis of a placement: where its part begins on the plane and in the object, and how long the part, the object and the plane are.
#[derive(Clone, Copy, Debug, PartialEq, Eq)]
struct Axis {
    at: u16,
    from: u16,
    count: u16,
    size: u16,
    limit: u16,
}

impl Axis {
    // How many of its pixels are inside the part, the object and the plane.
    fn visible(self) -> u16
        ensures { Visible self.at self.from self.count self.size self.limit result }
    {
        self.count
            .min(self.size.saturating_sub(self.from))
            .min(self.limit.saturating_sub(self.at))
    }
}

// The pixels of a placement that are on the plane: where they begin there and in the object, and how many columns and rows they have.
#[derive(Clone, Copy, Debug, PartialEq, Eq)]
struct VisiblePart {
    x: u16,
    y: u16,
    from_x: u16,
    from_y: u16,
    columns: u16,
    rows: u16,
}

// The part of an object that is used: the crop, or the whole object.
fn part_of(cropping: Option<CompositionObjectCrop>, size: Dimensions) -> CompositionObjectCrop
    ensures { result ≡ part_of cropping size.width size.height }
{
    cropping.unwrap_or(CompositionObjectCrop {
        horizontal_position: 0,
        vertical_position: 0,
        width: size.width,
        height: size.height,
    })
}

// The pixels of a placement of an object that are on the plane.
fn clip(placement: CompositionObject, object: Dimensions, plane: Dimensions) -> VisiblePart
    ensures bounds { Bounds result object.width object.height plane.width plane.height }
    ensures by_index { Clipped placement object plane result }
{
    let part = part_of(placement.cropping, object);
    let across = Axis {
        at: placement.object_horizontal_position,
        from: part.horizontal_position,
        count: part.width,
        size: object.width,
        limit: plane.width,
    };
    let down = Axis {
        at: placement.object_vertical_position,
        from: part.vertical_position,
        count: part.height,
        size: object.height,
        limit: plane.height,
    };
    VisiblePart {
        x: across.at,
        y: down.at,
        from_x: across.from,
        from_y: down.from,
        columns: across.visible(),
        rows: down.visible(),
    }
}

// Stores the colours of a row of indices: those of each table that has this front, since an index is a byte. A pixel is one load and one
// store.
// Stays by index: of a slice lent in pieces by `chunks_exact_mut` or `as_chunks_mut`, std does not say what it then holds. By
// `split_first_chunk_mut` in a loop, std says it of each turn, but past the loop, which goes on with another loan each turn, nothing is known.
fn paint_row(pixels: &[u8], table: Table<'_>, row: &mut [u8])
    requires { length row.old ≡ 4 * length pixels.now }
    ensures { (t : List ℕ) → table.entry.bytes.now ≡ take 1024 t
        → row.new ≡ strip (λ k. table_color t (get_or pixels.now k 0)) 0 (length pixels.now) }
{
    for (i, index) in pixels.iter().enumerate() {
        row[4 * i..4 * i + 4].copy_from_slice(&<[u8; 4]>::from(table.color(*index)));
    }
}

// The place of a pixel in rows of this width: in column x of the row that is j below row y.
fn place(width: u16, x: u16, y: u16, j: usize) -> usize
    requires { j < 65536 }
    ensures { result ≡ width * (y + j) + x }
{
    usize::from(width) * (usize::from(y) + j) + usize::from(x)
}

// Paints the pixels of a placement that are on the plane, a row at a time.
// Stays by index, as `paint_row`.
fn paint_rows(
    visible: VisiblePart,
    image: Image<'_>,
    table: Table<'_>,
    size: Dimensions,
    plane: &mut [u8],
)
    requires { Paintable visible image.size image.indices.now size plane.old }
    ensures { (t : List ℕ) → table.entry.bytes.now ≡ take 1024 t
        → RowsPainted visible image.entry.size image.entry.indices.now t size plane.old plane.new }
{
    let columns = usize::from(visible.columns);
    for j in 0..usize::from(visible.rows) {
        let from = place(image.size.width, visible.from_x, visible.from_y, j);
        let to = 4 * place(size.width, visible.x, visible.y, j);
        paint_row(
            &image.indices[from..from + columns],
            table,
            &mut plane[to..to + 4 * columns],
        );
    }
}

// Paints a placement of a bitmap onto a plane, with the colours of a palette table.
// Stays by size and plane, as `clear_plane`.
pub fn paint_placement(
    placement: CompositionObject,
    image: Image<'_>,
    table: &[u8],
    size: Dimensions,
    plane: &mut [u8],
) -> Result<(), Refusal>
    ensures { Paints placement (image_of image.entry.size.width image.entry.size.height image.entry.indices.now) table.now
        size.width size.height plane.old (verdict_of result) plane.new }
{
    let table = Table::new(table)?;
    if plane.len() < plane_bytes(size) {
        return Err(Refusal::BufferTooSmall);
    }
    if image.indices.len() < image.size.area() {
        return Err(Refusal::BufferTooSmall);
    }
    let visible = clip(placement, image.size, size);
    if visible.columns == 0 || visible.rows == 0 {
        return Ok(());
    }
    paint_rows(visible, image, table, size, plane);
    Ok(())
}
