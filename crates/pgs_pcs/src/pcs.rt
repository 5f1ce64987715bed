// The body of a PCS: a composition and its placements (01, module 3).
ghost use Rattle.std.specs.Prelude.{◌≡◌};
ghost use Rattle.pgs_base.specs.Outcome.{outcome, outcome_of, Delivered};
ghost use Rattle.pgs_pcs.specs.PcsBody.{
  cropped,
  placement_of,
  placement_size,
  placement_row,
  cropping_of,
  pcs_of,
  pcs_verdict,
  pcs_list,
  placement_count,
  placement_rows,
};

use pgs_base::refusal::Refusal;
use pgs_fields::{u8_at, u16_at};
use pgs_records::BodyList;
use pgs_records::list::{ListRecord, check_counted, read_counted};

// The part of an object that a placement shows.
#[derive(Clone, Copy, Debug, PartialEq, Eq)]
pub struct CompositionObjectCrop {
    pub horizontal_position: u16,
    pub vertical_position: u16,
    pub width: u16,
    pub height: u16,
}

// One placement: an object at a position on the plane.
#[derive(Clone, Copy, Debug, PartialEq, Eq)]
pub struct CompositionObject {
    pub object_id: u16,
    pub window_id: u8,
    // Stays beside `cropping`: without a crop any byte but 40 may stand there, and it is kept (01)
    pub object_cropped_flag: u8,
    pub object_horizontal_position: u16,
    pub object_vertical_position: u16,
    // the part that is shown, which only a placement with the flag 40 names
    pub cropping: Option<CompositionObjectCrop>,
}

// The numbers of a PCS; its placements stand in a list.
#[derive(Clone, Copy, Debug, Default, PartialEq, Eq)]
pub struct Pcs {
    pub width: u16,
    pub height: u16,
    pub frame_rate: u8,
    pub composition_number: u16,
    // Stays a byte, as the flag: a `CompositionState::Other` of a caller could hold the byte of a known state, and the byte is written
    pub composition_state: u8,
    pub palette_update_flag: u8,
    pub palette_id: u8,
}

impl CompositionObject {
    // The flag at which a crop follows.
    pub const CROPPED_FLAG: u8 = 0x40;

    // How many bytes a placement takes.
    pub const SIZE: usize = 8;

    // How many with a crop.
    pub const CROPPED_SIZE: usize = 16;

    // Whether the placement at the front of `l` has a crop.
    fn is_cropped(l: &[u8]) -> bool
        ensures { result ≡ cropped l.now }
    {
        u8_at(l, 3) == CompositionObject::CROPPED_FLAG
    }

    // Its crop.
    fn cropping(l: &[u8]) -> Option<CompositionObjectCrop>
        ensures { result ≡ cropping_of l.now }
    {
        if CompositionObject::is_cropped(l) {
            Some(CompositionObjectCrop {
                horizontal_position: u16_at(l, 8),
                vertical_position: u16_at(l, 10),
                width: u16_at(l, 12),
                height: u16_at(l, 14),
            })
        } else {
            None
        }
    }
}

impl ListRecord for CompositionObject {
    // Stays a row: the C interface lends rows.
    type Row = [u16; 10];

    ghost value = { placement_of };

    ghost size = { placement_size };

    ghost to_row = { placement_row };

    fn size(l: &[u8]) -> usize {
        if CompositionObject::is_cropped(l) {
            CompositionObject::CROPPED_SIZE
        } else {
            CompositionObject::SIZE
        }
    }

    // In line, so that a placement goes into its row at once, and not through memory.
    #[inline(always)]
    fn read(l: &[u8]) -> CompositionObject {
        CompositionObject {
            object_id: u16_at(l, 0),
            window_id: u8_at(l, 2),
            object_cropped_flag: u8_at(l, 3),
            object_horizontal_position: u16_at(l, 4),
            object_vertical_position: u16_at(l, 6),
            cropping: CompositionObject::cropping(l),
        }
    }

    // Object id, window id, crop flag, x, y, crop present (0 or 1), crop x, y, width, height.
    fn to_row(self) -> [u16; 10] {
        let id = self.object_id;
        let window = u16::from(self.window_id);
        let flag = u16::from(self.object_cropped_flag);
        let x = self.object_horizontal_position;
        let y = self.object_vertical_position;
        let cropping = self.cropping;
        match cropping {
            None => [id, window, flag, x, y, 0, 0, 0, 0, 0],
            Some(c) => [
                id,
                window,
                flag,
                x,
                y,
                1,
                c.horizontal_position,
                c.vertical_position,
                c.width,
                c.height,
            ],
        }
    }
}

// Whether the body is whole, and where its placements stand.
pub fn check_pcs(body: &[u8]) -> Result<BodyList, Refusal>
    ensures { outcome result ≡ outcome_of (pcs_verdict body.now) (pcs_list body.now) }
{
    check_counted::<CompositionObject>(body, Pcs::COUNT_AT)
}

impl Pcs {
    // Where the count of placements stands, behind the numbers.
    pub(crate) const COUNT_AT: usize = 10;

    // How many bytes the numbers and the count take.
    pub const SIZE: usize = 11;

    // The numbers at their places, also of a body that is cut short.
    pub fn numbers(body: &[u8]) -> Pcs
        ensures { result ≡ pcs_of body.now }
    {
        Pcs {
            width: u16_at(body, 0),
            height: u16_at(body, 2),
            frame_rate: u8_at(body, 4),
            composition_number: u16_at(body, 5),
            composition_state: u8_at(body, 7),
            palette_update_flag: u8_at(body, 8),
            palette_id: u8_at(body, 9),
        }
    }

    // Reads the placements of a body into the caller's list, from the front.
    pub fn parse(body: &[u8], placements: &mut [[u16; 10]]) -> Result<(Pcs, usize), Refusal>
        ensures { Delivered (pcs_verdict body.now) (pcs_of body.now, placement_count body.now) (placement_rows body.now) placements.old placements.new (outcome result) }
    {
        let n = read_counted::<CompositionObject>(body, Pcs::COUNT_AT, placements)?;
        Ok((Pcs::numbers(body), n))
    }
}
