// The palette update flag of a PCS, as a view of its byte.
ghost use Rattle.std.specs.Prelude.{◌≡◌};
ghost use Rattle.pgs_views.specs.Updates.{is_update};

// The flag at which the palette is updated.
pub const PALETTE_UPDATE: u8 = 0x80;

pub fn is_palette_update(flag: u8) -> bool
    ensures { result ≡ is_update flag }
{
    flag == PALETTE_UPDATE
}
