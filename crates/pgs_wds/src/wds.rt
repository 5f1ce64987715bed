// The body of a WDS: its windows (01, module 3).
ghost use Rattle.std.specs.Prelude.{◌≡◌};
ghost use Rattle.pgs_base.specs.Outcome.{outcome, outcome_of, Delivered};
ghost use Rattle.pgs_wds.specs.WdsBody.{
  window_of,
  window_size,
  window_row,
  wds_verdict,
  wds_list,
  window_count,
  window_rows,
};

use pgs_base::refusal::Refusal;
use pgs_fields::{u8_at, u16_at};
use pgs_records::BodyList;
use pgs_records::list::{ListRecord, check_counted, read_counted, walk_fixed};

#[derive(Clone, Copy, Debug, PartialEq, Eq)]
pub struct Window {
    pub window_id: u8,
    pub horizontal_position: u16,
    pub vertical_position: u16,
    pub width: u16,
    pub height: u16,
}

impl Window {
    // How many bytes a window takes.
    pub const SIZE: usize = 9;
}

impl ListRecord for Window {
    // Stays a row: the C interface lends rows.
    type Row = [u16; 5];

    ghost value = { window_of };

    ghost size = { window_size };

    ghost to_row = { window_row };

    fn size(_: &[u8]) -> usize {
        Window::SIZE
    }

    fn read(l: &[u8]) -> Window {
        Window {
            window_id: u8_at(l, 0),
            horizontal_position: u16_at(l, 1),
            vertical_position: u16_at(l, 3),
            width: u16_at(l, 5),
            height: u16_at(l, 7),
        }
    }

    // Id, x, y, width, height.
    fn to_row(self) -> [u16; 5] {
        [
            u16::from(self.window_id),
            self.horizontal_position,
            self.vertical_position,
            self.width,
            self.height,
        ]
    }

    fn walk(l: &[u8], n: usize) -> Result<usize, Refusal> {
        walk_fixed(Window::SIZE, l, n)
    }
}

// Whether the body is whole, and where its windows stand.
pub fn check_wds(body: &[u8]) -> Result<BodyList, Refusal>
    ensures { outcome result ≡ outcome_of (wds_verdict body.now) (wds_list body.now) }
{
    check_counted::<Window>(body, Wds::COUNT_AT)
}

#[derive(Clone, Copy, Debug, PartialEq, Eq)]
pub struct Wds {}

impl Wds {
    // Where the count of windows stands.
    const COUNT_AT: usize = 0;

    // Reads the windows of a body into the caller's list, from the front.
    pub fn parse(body: &[u8], windows: &mut [[u16; 5]]) -> Result<usize, Refusal>
        ensures { Delivered (wds_verdict body.now) (window_count body.now) (window_rows body.now) windows.old windows.new (outcome result) }
    {
        read_counted::<Window>(body, Wds::COUNT_AT, windows)
    }
}
