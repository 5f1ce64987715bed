// The writer of a segment of an unknown kind.
ghost use Rattle.pgs_writer_base.specs.Answers.{Wrote};
ghost use Rattle.pgs_writer_base.specs.Kinds.{other_segment};

use pgs_base::refusal::Refusal;
use pgs_views::segment_type::SegmentType;
use pgs_writer_base::body::encode_data;
use pgs_writer_base::head::Timestamps;

// Writes a segment of an unknown kind: 35 for one of the five known bytes or a body over 65,535 bytes, then 34.
pub fn encode_other(
    times: Timestamps,
    kind: u8,
    data: &[u8],
    out: &mut [u8],
) -> Result<usize, Refusal>
    ensures { Wrote (other_segment times.pts times.dts kind «data».now) out.old out.new result }
{
    match SegmentType::from(kind) {
        SegmentType::Other(v) => encode_data(times, SegmentType::Other(v), &[], data, out),
        _ => Err(Refusal::NotEncodable),
    }
}
