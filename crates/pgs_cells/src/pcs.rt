// The numbers of a PCS: width, height, frame rate, composition number, state, palette update flag, palette id.
ghost use Rattle.std.specs.Prelude.{◌≡◌};
ghost use Rattle.pgs_base.specs.Outcome.{outcome, outcome_of, unless};
ghost use Rattle.pgs_cells.specs.PcsCells.{pcs_cells, pcs_from, pcs_cells_fit};

use pgs_base::refusal::Refusal;
use pgs_pcs::pcs::Pcs;

// Stays a function, as `pcs_from`, `pds_cells` and `pds_from`: neither the record nor the array is a type of this crate, so that no `From`
// between them may stand here, as in Rust; in the record's crate it could, and there these cells, which only C has, would be out of place.
pub fn pcs_cells(p: Pcs) -> [u16; 7]
    ensures { result ≡ pcs_cells p }
{
    [
        p.width,
        p.height,
        u16::from(p.frame_rate),
        p.composition_number,
        u16::from(p.composition_state),
        u16::from(p.palette_update_flag),
        u16::from(p.palette_id),
    ]
}

// The numbers, or 35 for a cell that is too large for its field.
pub fn pcs_from(cells: [u16; 7]) -> Result<Pcs, Refusal>
    ensures { outcome result ≡ outcome_of (unless 35 (pcs_cells_fit cells)) (pcs_from cells) }
{
    let [
        width,
        height,
        frame_rate,
        composition_number,
        state,
        update,
        palette,
    ] = cells;
    Ok(Pcs {
        width,
        height,
        frame_rate: u8::try_from(frame_rate)?,
        composition_number,
        composition_state: u8::try_from(state)?,
        palette_update_flag: u8::try_from(update)?,
        palette_id: u8::try_from(palette)?,
    })
}
