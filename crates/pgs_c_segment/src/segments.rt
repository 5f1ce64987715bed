// Reading: the stream and the bodies.
ghost use Rattle.std.specs.Prelude.{◌≡◌};
ghost use Rattle.pgs_cells_ods.specs.OdsCells.{ods_cells};
ghost use Rattle.pgs_c_segment.specs.Segments.{
  SegmentsCall,
  PcsCall,
  WdsCall,
  PdsCall,
  OdsCall,
};

use pgs_c_told::told::{stored, told};
use pgs_cells::pcs::pcs_cells;
use pgs_cells::pds::pds_cells;
use pgs_cells_ods::ods::ods_cells;
use pgs_ods::ods::Ods;
use pgs_pcs::pcs::Pcs;
use pgs_pds::pds::Pds;
use pgs_stream::stream::parse_segments;
use pgs_wds::wds::Wds;

pub fn pgs_parse_segments(stream: &[u8], segments: &mut [[u64; 5]], count: &mut u64) -> u8
    ensures { SegmentsCall stream.now segments.old segments.new count.old count.new result }
{
    told(parse_segments(stream, segments), count)
}

pub fn pgs_parse_pcs(
    body: &[u8],
    pcs: &mut [u16; 7],
    placements: &mut [[u16; 10]],
    count: &mut u64,
) -> u8
    ensures { PcsCall body.now pcs.old pcs.new placements.old placements.new count.old count.new result }
{
    // One answer, told twice: how many, and the numbers.
    // Stays beside `pgs_parse_pds`: one function for both would need a trait of the parse and the cells with two impls, for two bodies of three
    // lines.
    let answer = Pcs::parse(body, placements);
    told(answer.map(|(_, placed)| placed), count);
    stored(answer.map(|(numbers, _)| numbers).map(pcs_cells), pcs)
}

pub fn pgs_parse_wds(body: &[u8], windows: &mut [[u16; 5]], count: &mut u64) -> u8
    ensures { WdsCall body.now windows.old windows.new count.old count.new result }
{
    told(Wds::parse(body, windows), count)
}

pub fn pgs_parse_pds(body: &[u8], pds: &mut [u8; 2], entries: &mut [[u8; 5]], count: &mut u64) -> u8
    ensures { PdsCall body.now pds.old pds.new entries.old entries.new count.old count.new result }
{
    // one answer, told twice: how many, and the numbers
    let answer = Pds::parse(body, entries);
    told(answer.map(|(_, given)| given), count);
    stored(answer.map(|(numbers, _)| numbers).map(pds_cells), pds)
}

pub fn pgs_parse_ods(body: &[u8], ods: &mut [u64; 9]) -> u8
    ensures { OdsCall body.now ods.old ods.new result }
{
    let cells = |(numbers, data)|
        ensures { result ≡ ods_cells numbers «data» }
    { ods_cells(numbers, data) };
    stored(Ods::parse(body).map(cells), ods)
}
