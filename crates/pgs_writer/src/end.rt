// The writer of an END.
ghost use Rattle.pgs_writer_base.specs.Answers.{Wrote};
ghost use Rattle.pgs_writer_base.specs.Kinds.{end_segment};

use pgs_base::refusal::Refusal;
use pgs_views::segment_type::SegmentType;
use pgs_writer_base::body::encode_data;
use pgs_writer_base::head::Timestamps;

// Writes an END, which has no body.
pub fn encode_end(times: Timestamps, out: &mut [u8]) -> Result<usize, Refusal>
    ensures { Wrote (end_segment times.pts times.dts) out.old out.new result }
{
    encode_data(times, SegmentType::End, &[], &[], out)
}
