// The writer of an ODS.
ghost use Rattle.std.specs.Prelude.{◌≡◌, ◌++◌, take, Some};
ghost use Rattle.pgs_encoding.specs.Encode.{dimension_fields, ods_fields};
ghost use Rattle.pgs_encoding.specs.Layout.{written};
ghost use Rattle.pgs_encoding.specs.Writable.{ods_writable};
ghost use Rattle.pgs_writer_base.specs.Answers.{Wrote};
ghost use Rattle.pgs_writer_base.specs.Kinds.{ods_segment};

use pgs_base::dimensions::Dimensions;
use pgs_base::refusal::Refusal;
use pgs_ods::ods::Ods;
use pgs_views::segment_type::SegmentType;
use pgs_writer_base::body::encode_data;
use pgs_writer_base::head::Timestamps;
use pgs_writer_base::put::put_u24;

// The largest declared length: it takes three bytes.
const LONGEST: u32 = (1 << 24) - 1;

// Whether the numbers can be written: a declared length that fits, and dimensions exactly at a first fragment.
fn ods_fits(o: Ods) -> bool
    ensures { result ≡ ods_writable o }
{
    if LONGEST < o.object_data_length {
        return false;
    }
    o.dimensions.is_some() == o.is_first()
}

// The numbers before the dimensions, one after another.
fn ods_bytes(o: Ods) -> [u8; Ods::SIZE]
    ensures { result ≡ take 7 (written (ods_fields o)) }
{
    let [id1, id2] = o.object_id.to_be_bytes();
    let version = o.object_version_number;
    let flag = o.last_in_sequence_flag;
    let mut bytes = [id1, id2, version, flag, 0, 0, 0];
    put_u24(&mut bytes, 4, o.object_data_length);
    bytes
}

// The same of a first fragment, and its dimensions.
fn first_bytes(o: Ods, size: Dimensions) -> [u8; Ods::FIRST_SIZE]
    ensures { result ≡ take 7 (written (ods_fields o)) ++ written (dimension_fields (Some size)) }
{
    let [id1, id2, version, flag, length1, length2, length3] = ods_bytes(o);
    let [width1, width2] = size.width.to_be_bytes();
    let [height1, height2] = size.height.to_be_bytes();
    [
        id1, id2, version, flag, length1, length2, length3, width1, width2, height1, height2,
    ]
}

// Writes an ODS: 35 for numbers that do not fit or a body over 65,535 bytes, then 34.
pub fn encode_ods(
    times: Timestamps,
    ods: Ods,
    data: &[u8],
    out: &mut [u8],
) -> Result<usize, Refusal>
    ensures { Wrote (ods_segment times.pts times.dts ods «data».now) out.old out.new result }
{
    if !ods_fits(ods) {
        return Err(Refusal::NotEncodable);
    }
    let dimensions = ods.dimensions;
    match dimensions {
        None => encode_data(times, SegmentType::Ods, &ods_bytes(ods), data, out),
        Some(size) => encode_data(times, SegmentType::Ods, &first_bytes(ods, size), data, out),
    }
}
