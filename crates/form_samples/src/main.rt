// Prints what the reader and the records as structs answer, for rt to compare with the file stdout: the head and the data of a fragment
// through the body reader, and the segments of a stream as structs in a list that was full of 9s before.
#![tactic(auto)]

use pgs_base::refusal::Refusal;
use pgs_segment::header::SegmentHeader;
use pgs_segment_list::SegmentRecord;
use std::io;

// An END segment, all of whose numbers but its kind are 0.
const END: [u8; 13] = [0x50, 0x47, 0, 0, 0, 0, 0, 0, 0, 0, 0x80, 0, 0];

fn print_field(rt: &impl Print, field: Result<u32, Refusal>) -> io::Result<()> {
    match field {
        Ok(number) => print!(rt; " {number}"),
        Err(why) => print!(rt; " refused {why}"),
    }
}

// The four fields of a head, and how many bytes are left.
fn print_head(rt: &impl Print, body: &[u8]) -> io::Result<()> {
    print!(rt; "head:")?;
    let head = pgs_fragment_reader::fragment_head(body);
    print_field(rt, head.object_id)?;
    print_field(rt, head.object_version)?;
    print_field(rt, head.flag)?;
    print_field(rt, head.declared_length)?;
    println!(rt; ", left {}", head.left)
}

// The data of a fragment that is not the first.
fn print_data(rt: &impl Print, body: &[u8]) -> io::Result<()> {
    print!(rt; "data:")?;
    for byte in pgs_fragment_reader::fragment_data(body) {
        print!(rt; " {byte}")?;
    }
    println!(rt; "")
}

fn print_record(rt: &impl Print, r: SegmentRecord) -> io::Result<()> {
    let header = r.header;
    println!(rt;
        "  {} {} {} {} {}",
        r.place, header.pts, header.dts, header.segment_type, header.segment_size
    )
}

// What reading a stream into eight records answers, and the records: the first three and the last.
fn print_segments(rt: &impl Print, stream: &[u8]) -> io::Result<()> {
    let header = SegmentHeader {
        pts: 9,
        dts: 9,
        segment_type: 9,
        segment_size: 9,
    };
    let nine = SegmentRecord { place: 9, header };
    let read = pgs_segment_list::parse_eight(stream, [nine; 8]);
    match read.answer {
        Ok(n) => println!(rt; "segments: {n}")?,
        Err(why) => println!(rt; "refused: {why}")?,
    }
    for r in &read.list[..3] {
        print_record(rt, *r)?;
    }
    print_record(rt, read.list[7])
}

fn main(rt: HostRuntime) -> io::Result<()> {
    print_head(&rt, &[0, 7, 1, 0xC0, 0, 0, 6, 2, 3])?;
    print_head(&rt, &[0, 7, 1, 0xC0, 0, 0, 6])?;
    print_head(&rt, &[0, 7, 1, 0xC0, 1, 2])?;
    print_head(&rt, &[5])?;
    print_data(&rt, &[0, 7, 1, 0x40, 0, 0, 6, 2, 3])?;
    print_data(&rt, &[0, 7, 1, 0x40, 0, 0, 6])?;
    print_data(&rt, &[0, 7, 1, 0x40, 8, 9])?;
    let one = [
        0x50, 0x47, 0, 1, 0x5F, 0x90, 0, 0, 0, 2, 0x16, 0, 0x0B, 7, 0x80, 4, 0x38, 0x10, 0, 1,
        0x80, 0, 5, 0, 0x50, 0x47, 0, 1, 0x5F, 0x90, 0, 0, 0, 0, 0x80, 0, 0,
    ];
    print_segments(&rt, &one)?;
    print_segments(&rt, &one[..36])?;
    print_segments(&rt, &one[..0])?;
    print_segments(&rt, [END; 8].as_flattened())?;
    print_segments(&rt, [END; 9].as_flattened())
}
