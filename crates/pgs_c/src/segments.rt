// Reading: the stream and the bodies.
ghost use Rattle.pgs_c_segment.specs.Segments.{SegmentsCall, PcsCall, WdsCall, PdsCall, OdsCall};

#[unsafe(no_mangle)]
pub extern "C" fn pgs_parse_segments(
    stream: &[u8],
    segments: &mut [[u64; 5]],
    count: &mut u64,
) -> u8
    ensures { SegmentsCall stream.now segments.old segments.new count.old count.new result }
{
    pgs_c_segment::segments::pgs_parse_segments(stream, segments, count)
}

#[unsafe(no_mangle)]
pub extern "C" fn pgs_parse_pcs(
    body: &[u8],
    pcs: &mut [u16; 7],
    placements: &mut [[u16; 10]],
    count: &mut u64,
) -> u8
    ensures { PcsCall body.now pcs.old pcs.new placements.old placements.new count.old count.new result }
{
    pgs_c_segment::segments::pgs_parse_pcs(body, pcs, placements, count)
}

#[unsafe(no_mangle)]
pub extern "C" fn pgs_parse_wds(body: &[u8], windows: &mut [[u16; 5]], count: &mut u64) -> u8
    ensures { WdsCall body.now windows.old windows.new count.old count.new result }
{
    pgs_c_segment::segments::pgs_parse_wds(body, windows, count)
}

#[unsafe(no_mangle)]
pub extern "C" fn pgs_parse_pds(
    body: &[u8],
    pds: &mut [u8; 2],
    entries: &mut [[u8; 5]],
    count: &mut u64,
) -> u8
    ensures { PdsCall body.now pds.old pds.new entries.old entries.new count.old count.new result }
{
    pgs_c_segment::segments::pgs_parse_pds(body, pds, entries, count)
}

#[unsafe(no_mangle)]
pub extern "C" fn pgs_parse_ods(body: &[u8], ods: &mut [u64; 9]) -> u8
    ensures { OdsCall body.now ods.old ods.new result }
{
    pgs_c_segment::segments::pgs_parse_ods(body, ods)
}
