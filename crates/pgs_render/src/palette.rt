// The palette of a display set, as a table of colours: 01, 'Plane'.
ghost use Rattle.std.specs.Prelude.{◌≡◌};
ghost use Rattle.pgs_color.specs.Bytes.{rgb_of};
ghost use Rattle.pgs_palette.specs.Table.{laid};
ghost use Rattle.pgs_set.specs.Sets.{through_end};
ghost use Rattle.pgs_set.specs.Walks.{pieces_at};
ghost use Rattle.pgs_rendering.specs.Palettes.{
  empty_table,
  entries_named,
  entries_among,
};

use pgs_palette::palette::{TABLE_LEN, apply};
use pgs_pds::pds::Pds;
use pgs_set::open_set::OpenSet;

// Lays the entries of a palette segment over a table, if the PCS names its palette.
fn lay_palette(body: &[u8], named: u8, table: &mut [u8; TABLE_LEN])
    ensures { table.new ≡ laid rgb_of (entries_named named body.now) table.old }
{
    let _ = apply(
        Pds::entries(body),
        Pds::numbers(body).palette_id,
        named,
        table,
    );
}

// Lays the palettes of a set over an empty table, for the palette that its PCS names.
// Stays with the table lent: handed back, its bytes would be copied.
pub(crate) fn fill_table(set: OpenSet<'_>, named: u8, table: &mut [u8; TABLE_LEN])
    requires { table.old ≡ empty_table }
    ensures { table.new ≡ laid rgb_of (entries_among named (through_end (pieces_at set.entry.stream.now set.entry.from))) empty_table }
{
    for segment in set.segments() {
        if segment.header.kind().is_pds() {
            lay_palette(segment.body(set.stream), named, table);
        }
    }
}
