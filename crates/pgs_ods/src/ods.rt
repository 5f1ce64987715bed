// The body of an ODS: an object, or one fragment of it (01, module 3).
ghost use Rattle.std.specs.Prelude.{◌≡◌};
ghost use Rattle.pgs_base.specs.Outcome.{outcome, outcome_of};
ghost use Rattle.pgs_views.specs.Fragments.{fragment_of, is_first, is_last};
ghost use Rattle.pgs_ods.specs.OdsBody.{
  flag_of,
  head_size,
  dimensions_of,
  ods_of,
  ods_verdict,
  ods_list,
};

use pgs_base::dimensions::Dimensions;
use pgs_base::refusal::Refusal;
use pgs_fields::{u8_at, u16_at, u24_at};
use pgs_records::BodyList;
use pgs_views::fragment_flag::FragmentFlag;

// The numbers of an ODS; its data stands in the body.
#[derive(Clone, Copy, Debug, Default, PartialEq, Eq)]
pub struct Ods {
    pub object_id: u16,
    pub object_version_number: u8,
    // Stays a byte beside `dimensions`: a `FragmentFlag::Other` of a caller could hold the byte of a first fragment, and the byte is written
    pub last_in_sequence_flag: u8,
    pub object_data_length: u32,
    // only a first fragment has them
    pub dimensions: Option<Dimensions>,
}

// Whether a body is that of a first fragment, by its flag.
// Stays beside `Ods::is_first`: the dimensions of an `Ods` are read by it, before there is one.
fn is_first(body: &[u8]) -> bool
    ensures { result ≡ is_first (fragment_of (flag_of body.now)) }
{
    FragmentFlag::from(u8_at(body, 3)).is_first()
}

// How many bytes stand before the data.
fn head_size(body: &[u8]) -> usize
    ensures { result ≡ head_size (flag_of body.now) }
{
    if is_first(body) {
        Ods::FIRST_SIZE
    } else {
        Ods::SIZE
    }
}

// Whether the body is whole, and where its data stands.
pub fn check_ods(body: &[u8]) -> Result<BodyList, Refusal>
    ensures { outcome result ≡ outcome_of (ods_verdict body.now) (ods_list body.now) }
{
    let start = head_size(body);
    let data = body.get(start..).ok_or(Refusal::FieldPastEnd)?;
    Ok(BodyList {
        start,
        len: data.len(),
        ..BodyList::default()
    })
}

impl Ods {
    // How many bytes stand before the data.
    pub const SIZE: usize = 7;

    // How many of a first fragment, which has the dimensions.
    pub const FIRST_SIZE: usize = 11;

    // The dimensions, which a first fragment has.
    fn dimensions(body: &[u8]) -> Option<Dimensions>
        ensures { result ≡ dimensions_of body.now }
    {
        if is_first(body) {
            Some(Dimensions {
                width: u16_at(body, 7),
                height: u16_at(body, 9),
            })
        } else {
            None
        }
    }

    // The numbers at their places, also of a body that is cut short.
    pub fn numbers(body: &[u8]) -> Ods
        ensures { result ≡ ods_of body.now }
    {
        Ods {
            object_id: u16_at(body, 0),
            object_version_number: u8_at(body, 2),
            last_in_sequence_flag: u8_at(body, 3),
            object_data_length: u24_at(body, 4),
            dimensions: Ods::dimensions(body),
        }
    }

    // Reads a body; its data stays where it is.
    pub fn parse(body: &[u8]) -> Result<(Ods, BodyList), Refusal>
        ensures { outcome result ≡ outcome_of (ods_verdict body.now) (ods_of body.now, ods_list body.now) }
    {
        let data = check_ods(body)?;
        Ok((Ods::numbers(body), data))
    }

    // Whether the fragment opens its object.
    pub fn is_first(self) -> bool
        ensures { result ≡ is_first (fragment_of self.last_in_sequence_flag) }
    {
        FragmentFlag::from(self.last_in_sequence_flag).is_first()
    }

    // Whether the fragment closes its object.
    pub fn is_last(self) -> bool
        ensures { result ≡ is_last (fragment_of self.last_in_sequence_flag) }
    {
        FragmentFlag::from(self.last_in_sequence_flag).is_last()
    }
}
