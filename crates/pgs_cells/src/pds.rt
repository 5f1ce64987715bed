// The numbers of a PDS: id, version.
ghost use Rattle.std.specs.Prelude.{◌≡◌};
ghost use Rattle.pgs_cells.specs.PdsCells.{pds_cells, pds_from};

use pgs_pds::pds::Pds;

pub fn pds_cells(p: Pds) -> [u8; 2]
    ensures { result ≡ pds_cells p }
{
    [p.palette_id, p.palette_version_number]
}

pub fn pds_from(cells: [u8; 2]) -> Pds
    ensures { result ≡ pds_from cells }
{
    let [id, version] = cells;
    Pds {
        palette_id: id,
        palette_version_number: version,
    }
}
