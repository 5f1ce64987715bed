// Streams that are read and written again.
use crate::show;
use pgs_stream_writer::stream::write_segments;
use std::io;

// An unknown segment with 8 body bytes does not fit 15 bytes; the END behind it does.
fn skipped(rt: &impl Print) -> io::Result<()> {
    let stream = b"PG\0\0\0\x01\0\0\0\x02\x99\0\x08abcdefghPG\0\0\0\x03\0\0\0\x04\x80\0\0";
    let mut out = [0xEEu8; 15];
    show::bytes(rt, "unknown, END:", stream)?;
    show::written(rt, "into 15", write_segments(stream, 2, &mut out), &out)
}

// Tails of a PCS and of a WDS are cut off.
fn tails(rt: &impl Print) -> io::Result<()> {
    let stream = b"PG\0\0\0\x01\0\0\0\x02\x16\0\x26\x07\x80\x04\x38\x10\0\x01\x80\0\0\x02\
        \0\x05\0\0\0\x64\x03\xD4\0\x06\0\x40\0\x65\x03\xD5\0\x01\0\x02\0\x03\0\x04\xAA\xBB\xCC\
        PG\0\0\0\x03\0\0\0\x04\x17\0\x0C\x01\x02\0\x64\x03\xD4\0\x10\0\x08\xDD\xDD\
        PG\0\0\0\x05\0\0\0\x06\x80\0\0";
    let mut long = [0xEEu8; 86];
    let mut exact = [0xEEu8; 84];
    let mut short = [0xEEu8; 83];
    show::bytes(rt, "PCS with a tail, WDS with a tail, END:", stream)?;
    show::written(rt, "into 86", write_segments(stream, 3, &mut long), &long)?;
    show::written(rt, "into 84", write_segments(stream, 3, &mut exact), &exact)?;
    show::written(rt, "into 83", write_segments(stream, 3, &mut short), &short)
}

// One byte too many is a refused stream: nothing is written.
fn refused(rt: &impl Print) -> io::Result<()> {
    let mut out = [0xEEu8; 15];
    let stream = b"PG\0\0\0\x03\0\0\0\x04\x80\0\0P";
    show::bytes(rt, "END, one byte:", stream)?;
    show::written(rt, "into 15", write_segments(stream, 1, &mut out), &out)
}

pub(crate) fn samples(rt: &impl Print) -> io::Result<()> {
    skipped(rt)?;
    tails(rt)?;
    refused(rt)
}
