// The numbers of an ODS: id, version, flag, declared length, dimensions present, width, height; a body that was read has the place and
// the length of its data besides.
ghost use Rattle.std.specs.Prelude.{◌≡◌};
ghost use Rattle.pgs_base.specs.Outcome.{outcome, outcome_of, unless};
ghost use Rattle.pgs_cells_ods.specs.OdsCells.{
  ods_cells,
  ods_from,
  ods_cells_fit,
  dimension_cells,
  dimensions_from,
  dimensions_fit,
};

use pgs_base::dimensions::Dimensions;
use pgs_base::refusal::Refusal;
use pgs_ods::ods::Ods;
use pgs_records::BodyList;

// The mark 'present', and the two dimensions, 0 where they are absent.
fn dimension_cells(dimensions: Option<Dimensions>) -> [u64; 3]
    ensures { result ≡ dimension_cells dimensions }
{
    match dimensions {
        None => [0; 3],
        Some(size) => [1, u64::from(size.width), u64::from(size.height)],
    }
}

// Stays a function, as `ods_from`: neither the record nor the array is a type of this crate, so that no `From` between them may stand here,
// as in Rust; in the record's crate it could, and there these cells, which only C has, would be out of place.
pub fn ods_cells(o: Ods, data: BodyList) -> [u64; 9]
    ensures { result ≡ ods_cells o «data» }
{
    let [present, width, height] = dimension_cells(o.dimensions);
    [
        u64::from(o.object_id),
        u64::from(o.object_version_number),
        u64::from(o.last_in_sequence_flag),
        u64::from(o.object_data_length),
        present,
        width,
        height,
        data.start as u64,
        data.len as u64,
    ]
}

// The dimensions by the mark 'present'; where it is 0 the other two cells are ignored.
fn dimensions_from(mark: u32, width: u32, height: u32) -> Result<Option<Dimensions>, Refusal>
    ensures { outcome result ≡ outcome_of (unless 35 (dimensions_fit mark width height)) (dimensions_from mark width height) }
{
    match mark {
        0 => Ok(None),
        1 => Ok(Some(Dimensions {
            width: u16::try_from(width)?,
            height: u16::try_from(height)?,
        })),
        _ => Err(Refusal::NotEncodable),
    }
}

// The numbers, or 35 for a cell that is too large for its field, but for the declared length, which the writer tests.
pub fn ods_from(cells: [u32; 7]) -> Result<Ods, Refusal>
    ensures { outcome result ≡ outcome_of (unless 35 (ods_cells_fit cells)) (ods_from cells) }
{
    let [id, version, flag, declared, present, width, height] = cells;
    Ok(Ods {
        object_id: u16::try_from(id)?,
        object_version_number: u8::try_from(version)?,
        last_in_sequence_flag: u8::try_from(flag)?,
        object_data_length: declared,
        dimensions: dimensions_from(present, width, height)?,
    })
}
