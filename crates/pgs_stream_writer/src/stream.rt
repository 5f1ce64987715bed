// A list of writes: the segments of a stream, one after another, into one output (01, 'The cut stream').
ghost use Rattle.std.specs.Prelude.{◌≡◌, drop};
ghost use Rattle.pgs_base.specs.Outcome.{outcome, outcome_of};
ghost use Rattle.pgs_stream.specs.Stream.{stream_verdict};
ghost use Rattle.pgs_stream_writer.specs.StreamWrites.{stream_writes, writes_done, output_after};

use crate::rewrite::rewrite_body;
use pgs_base::refusal::Refusal;
use pgs_stream::segments::Segments;
use pgs_stream::stream::count_segments;
use pgs_writer_base::head::Timestamps;

// What a list of writes answers: how many were accepted, and how many bytes they take.
#[derive(Clone, Copy, Debug, PartialEq, Eq)]
pub struct Writes {
    pub accepted: usize,
    pub bytes: usize,
}

// Writes the first n of these segments, or all if there are fewer.
fn write_first(segments: Segments, n: usize, out: &mut [u8]) -> Writes
    ensures result_value { result ≡ writes_done (stream_writes n (drop segments.entry.at segments.entry.stream.now) out.old) }
    ensures out_after { out.new ≡ (stream_writes n (drop segments.entry.at segments.entry.stream.now) out.old).output }
{
    let stream = segments.stream;
    let mut accepted: usize = 0;
    // Stays a count: it is answered, and the next write begins there.
    let mut bytes: usize = 0;
    for segment in segments.take(n) {
        let header = segment.header;
        let times = Timestamps {
            pts: header.pts,
            dts: header.dts,
        };
        let body = segment.body(stream);
        if let Ok(written) = rewrite_body(times, header.kind(), body, &mut out[bytes..]) {
            bytes += written;
            accepted += 1;
        }
    }
    Writes { accepted, bytes }
}

// Writes the first segments of a stream, `writes` of them or all if it has fewer, each behind the last that was accepted. A write that is
// refused changes nothing, and the next is tried.
pub fn write_segments(s: &[u8], writes: usize, out: &mut [u8]) -> Result<Writes, Refusal>
    ensures result_value { outcome result ≡ outcome_of (stream_verdict s.now) (writes_done (stream_writes writes s.now out.old)) }
    ensures out_after { out.new ≡ output_after (stream_verdict s.now) (stream_writes writes s.now out.old) out.old }
{
    count_segments(s)?;
    Ok(write_first(Segments { stream: s, at: 0 }, writes, out))
}
