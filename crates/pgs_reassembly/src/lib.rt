// Definitions of the objects of a display set and of their joined data, and what follows from them: 01, module 7. `pgs_object` finds,
// lists and joins them.
#![tactic(auto)]

ghost use Rattle.std.specs.Prelude.{◌≡◌};
ghost use Rattle.pgs_reassembly.specs.Reassembly.{record_data, record_joined, row_of};

use pgs_base::dimensions::Dimensions;
use pgs_base::record::FromRecord;
use pgs_object_view::view::object_data;
pub use pgs_object_view::view::part;
use pgs_ods::ods::Ods;

// The numbers of a fragment, and where its data stands.
#[derive(Clone, Copy, Debug, Default, PartialEq, Eq)]
pub struct FragmentNumbers {
    // the place of its segment in the stream
    pub place: usize,
    pub ods: Ods,
    // the place of its data in the stream
    // Stays a place and a length: a slice does not give its place back, and an object's record hands over the place.
    pub start: usize,
    // the length of its data
    pub len: usize,
}

// A chain: what is known of an object from the fragments that were taken.
#[derive(Clone, Copy, Debug, Default, PartialEq, Eq)]
pub struct ChainRow {
    pub first: FragmentNumbers,
    // whether the last fragment was taken
    pub closed: bool,
    // whether it has several fragments, so that its data is copied
    // Stays a bool: an object's record takes it over as it is.
    pub copied: bool,
    // the length of its joined data
    pub len: usize,
}

// The record of an object.
#[derive(Clone, Copy, Debug, Default, PartialEq, Eq)]
pub struct ObjectRecord {
    pub id: u16,
    pub version: u8,
    // of its bitmap
    pub size: Dimensions,
    // whether its data is copied to the scratch; else it stands in the stream
    // Stays a bool: an enum of the two holders, each with its place, would be turned back into C's 0 or 1 and a place.
    pub copied: bool,
    // the place of its joined data there
    pub place: usize,
    // the length of its joined data
    pub len: usize,
}

// As a row of cells: id, version, width, height, 1 for the scratch or 0 for the stream, place, length.
// Stays a row of numbers: the C interface lends such lists.
impl FromRecord<ObjectRecord> for [u64; 7] {
    ghost from_record = { row_of };

    fn from_record(item: ObjectRecord) -> [u64; 7] {
        [
            u64::from(item.id),
            u64::from(item.version),
            u64::from(item.size.width),
            u64::from(item.size.height),
            u64::from(item.copied),
            item.place as u64,
            item.len as u64,
        ]
    }
}

impl ObjectRecord {
    // How many bytes of the scratch its joined data takes.
    pub fn joined_len(self) -> usize
        ensures { result ≡ record_joined self }
    {
        if self.copied { self.len } else { 0 }
    }

    // Its data, as a part of the stream or of the scratch, whichever holds it. A record that no call made, and that points outside its
    // holder, shows the empty part.
    pub fn data<'a>(self, stream: &'a [u8], scratch: &'a [u8]) -> &'a [u8]
        ensures { result.now ≡ record_data stream.now scratch.now self }
    {
        object_data(stream, scratch, <[u64; 7]>::from_record(self))
    }
}
