// One segment that is read and written again, through the public readings and the writers.
ghost use Rattle.std.specs.Prelude.{◌≡◌, ◌≤◌, length};
ghost use Rattle.pgs_base.specs.Outcome.{accepted};
ghost use Rattle.pgs_segment.specs.Fields.{body_verdict};
ghost use Rattle.pgs_writer_base.specs.Answers.{Wrote};
ghost use Rattle.pgs_writer_base.specs.Kinds.{segment_with};

use pgs_base::refusal::Refusal;
use pgs_ods::ods::Ods;
use pgs_pcs::pcs::Pcs;
use pgs_pds::pds::Pds;
use pgs_views::segment_type::SegmentType;
use pgs_wds::wds::Wds;
use pgs_writer::end::encode_end;
use pgs_writer::ods::encode_ods;
use pgs_writer::other::encode_other;
use pgs_writer_base::head::Timestamps;
use pgs_writer_lists::pds::encode_pds;
use pgs_writer_lists::wds::encode_wds;
use pgs_writer_pcs::pcs::encode_pcs;

// Room for all placements or windows that a count of one byte can name.
const COUNTED: usize = u8::MAX as usize;

// Writes a PCS of the body, which is known to be whole: reading it is never refused. It and the one below are functions of their own, since
// each call clears all the room that its function has.
// Stays beside the one of a WDS, which is alike: one function for both would need a trait of reading and writing, with two impls.
fn rewrite_pcs(times: Timestamps, body: &[u8], out: &mut [u8]) -> Result<usize, Refusal>
    requires { body_verdict SegmentType.Pcs body.now ≡ accepted }
    ensures { Wrote (segment_with times.pts times.dts SegmentType.Pcs body.now) out.old out.new result }
{
    let mut placements = [[0u16; 10]; COUNTED];
    let (pcs, n) = Pcs::parse(body, &mut placements)?;
    encode_pcs(times, pcs, &placements[..n], out)
}

// Writes a WDS of such a body.
fn rewrite_wds(times: Timestamps, body: &[u8], out: &mut [u8]) -> Result<usize, Refusal>
    requires { body_verdict SegmentType.Wds body.now ≡ accepted }
    ensures { Wrote (segment_with times.pts times.dts SegmentType.Wds body.now) out.old out.new result }
{
    let mut windows = [[0u16; 5]; COUNTED];
    let n = Wds::parse(body, &mut windows)?;
    encode_wds(times, &windows[..n], out)
}

// Writes the segment of this kind and body, which is known to be whole.
pub(crate) fn rewrite_body(
    times: Timestamps,
    kind: SegmentType,
    body: &[u8],
    out: &mut [u8],
) -> Result<usize, Refusal>
    requires body_value { body_verdict kind body.now ≡ accepted }
    requires body_len_bound { length body.now ≤ 65535 }
    ensures { Wrote (segment_with times.pts times.dts kind body.now) out.old out.new result }
{
    match kind {
        SegmentType::Pds => encode_pds(times, Pds::numbers(body), Pds::entries(body), out),
        SegmentType::Ods => {
            let (ods, data) = Ods::parse(body)?;
            encode_ods(times, ods, &body[data.start..], out)
        }
        SegmentType::Pcs => rewrite_pcs(times, body, out),
        SegmentType::Wds => rewrite_wds(times, body, out),
        SegmentType::End => encode_end(times, out),
        SegmentType::Other(v) => encode_other(times, v, body, out),
    }
}
