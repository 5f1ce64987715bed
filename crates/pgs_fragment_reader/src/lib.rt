// The head and the data of a fragment, read through a body reader.
#![tactic(auto)]

ghost use Rattle.std.specs.Prelude.{◌≡◌, drop};
ghost use Rattle.pgs_fragment_reader.specs.Fragment.{place_from, head_widths, Headed};

use pgs_base::refusal::Refusal;
use pgs_body_reader::BodyReader;

// The fields at the front of an ODS body up to the declared length, each as its read answered it, and how many bytes are left.
#[derive(Clone, Copy, Debug, PartialEq, Eq)]
pub struct FragmentHead {
    pub object_id: Result<u32, Refusal>,
    pub object_version: Result<u32, Refusal>,
    pub flag: Result<u32, Refusal>,
    pub declared_length: Result<u32, Refusal>,
    pub left: usize,
}

// The head of a fragment, read through a reader. A read that is refused is passed over, and the next goes on at the same place. The
// parameter is a plain slice, so whoever calls it needs no reader.
pub fn fragment_head(body: &[u8]) -> FragmentHead
    ensures { Headed body.now result }
{
    let mut reader = BodyReader::new(body);
    FragmentHead {
        object_id: reader.u16(),
        object_version: reader.u8(),
        flag: reader.u8(),
        declared_length: reader.u24(),
        left: reader.remaining(),
    }
}

// The bytes after the last read of the head that was accepted: the data of a fragment that is not the first, where its head is whole.
pub fn fragment_data(body: &[u8]) -> &[u8]
    ensures { result.now ≡ drop (place_from head_widths 0 body.now) body.now }
{
    let mut reader = BodyReader::new(body);
    // Only the place after the reads counts.
    // Stays beside the same reads of `fragment_head`: one function for both would be lent the reader, and promise four things of it, its
    // body, the fields from its position, what is left and where it then stands, to spare these four lines.
    let _ = reader.u16();
    let _ = reader.u8();
    let _ = reader.u8();
    let _ = reader.u24();
    reader.rest()
}
