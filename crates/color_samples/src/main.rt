// Prints the colours of a few Y, Cb and Cr, and of palettes, for rt to compare with the file stdout.
#![tactic(auto)]

use pgs_base::refusal::Refusal;
use pgs_color::ycbcr::{Rgb8, ycbcr709_to_rgb};
use pgs_palette::palette::{Rgba8, TABLE_LEN, apply, clear, get};
use std::io;

// Y, Cb and Cr, and their colour.
fn print_color(rt: &impl Print, y: u8, cb: u8, cr: u8) -> io::Result<()> {
    let Rgb8 { r, g, b } = ycbcr709_to_rgb(y, cb, cr);
    println!(rt; "{y} {cb} {cr} is {r} {g} {b}")
}

fn print_refusal(rt: &impl Print, refusal: Refusal) -> io::Result<()> {
    println!(rt; "refused {refusal}")
}

// The pixel of an index, in hexadecimal.
fn print_index(rt: &impl Print, table: &[u8], index: u8) -> io::Result<()> {
    print!(rt; "index {index}: ")?;
    match get(table, index) {
        Ok(Rgba8 { r, g, b, a }) => println!(rt; "{r:02x} {g:02x} {b:02x} {a:02x}"),
        Err(refusal) => print_refusal(rt, refusal),
    }
}

fn print_update(rt: &impl Print, update: Result<(), Refusal>) -> io::Result<()> {
    match update {
        Ok(()) => println!(rt; "done"),
        Err(refusal) => print_refusal(rt, refusal),
    }
}

// The starred samples; green's two subtractions in 01's order, where the other order gives 76; the byte farthest from its exact value.
fn print_colors(rt: &impl Print) -> io::Result<()> {
    print_color(rt, 16, 128, 128)?;
    print_color(rt, 81, 90, 240)?;
    print_color(rt, 32, 144, 13)?;
    print_color(rt, 252, 23, 240)
}

// A palette under id 0, which the PCS names; the table starts without an entry.
fn print_palette(rt: &impl Print) -> io::Result<()> {
    let mut table = [255u8; TABLE_LEN];
    print_update(rt, clear(&mut table))?;
    print_index(rt, &table, 1)?;
    // entries are id, Y, Cr, Cb, alpha
    let first = [[1u8, 0x51, 0xf0, 0x5a, 0xff]];
    print_update(rt, apply(&first, 0, 0, &mut table))?;
    print_index(rt, &table, 1)?;
    // another palette does not apply
    let other = [[1u8, 0x10, 0x80, 0x80, 0xff]];
    print_update(rt, apply(&other, 5, 0, &mut table))?;
    print_index(rt, &table, 1)?;
    // a later segment's entry wins, and of two with one id the later; alpha 0 keeps the colour
    let later = [
        [3u8, 0x10, 0x80, 0x80, 0xff],
        [1u8, 0x51, 0xf0, 0x5a, 0x00],
        [3u8, 0xeb, 0x80, 0x80, 0x80],
    ];
    print_update(rt, apply(&later, 0, 0, &mut table))?;
    print_index(rt, &table, 1)?;
    print_index(rt, &table, 2)?;
    print_index(rt, &table, 3)
}

// A table that is one byte short.
fn print_short(rt: &impl Print) -> io::Result<()> {
    let mut table = [255u8; TABLE_LEN - 1];
    print_update(rt, clear(&mut table))?;
    print_index(rt, &table, 1)
}

fn main(rt: HostRuntime) -> io::Result<()> {
    print_colors(&rt)?;
    print_palette(&rt)?;
    print_short(&rt)
}
