// The calls that read. Lists and buffers are full of 9s before.
use crate::print;
use pgs_bitmap::bitmap::decode_rle;
use pgs_cards::cards::write_cards;
use pgs_color::ycbcr::{Rgb8, ycbcr709_to_rgb};
use pgs_object::object::{list_objects, reassemble_objects};
use pgs_ods::ods::Ods;
use pgs_palette::palette::{TABLE_LEN, apply, clear, get};
use pgs_pcs::pcs::Pcs;
use pgs_pds::pds::Pds;
use pgs_render::render::render;
use pgs_set::set::parse_display_sets;
use pgs_stream::stream::parse_segments;
use pgs_wds::wds::Wds;
use std::io;

pub(crate) fn segments(rt: &impl Print, input: &[u8]) -> io::Result<()> {
    print::filled(
        rt,
        "segments",
        &mut [[9u64; 5]; 6],
        |list| parse_segments(input, list),
    )
}

pub(crate) fn pcs(rt: &impl Print, input: &[u8]) -> io::Result<()> {
    print::filled(
        rt,
        "pcs",
        &mut [[9u16; 10]; 3],
        |list| Pcs::parse(input, list),
    )
}

pub(crate) fn wds(rt: &impl Print, input: &[u8]) -> io::Result<()> {
    print::filled(
        rt,
        "wds",
        &mut [[9u16; 5]; 3],
        |list| Wds::parse(input, list),
    )
}

// The colours of indices 0 to 3 where entries are laid over a cleared table.
fn print_colors(rt: &impl Print, entries: &[[u8; 5]], id: u8, named: u8) -> io::Result<()> {
    let mut table = [9u8; TABLE_LEN];
    print::outcome(rt, " done", clear(&mut table))?;
    print::outcome(rt, " done", apply(entries, id, named, &mut table))?;
    for index in 0..4 {
        print::outcome(rt, "", get(&table, index))?;
    }
    Ok(())
}

// The id that a composition names, then the body of a palette.
pub(crate) fn pds(rt: &impl Print, input: &[u8]) -> io::Result<()> {
    let [named, body @ ..] = input else {
        return Ok(());
    };
    let mut list = [[9u8; 5]; 4];
    let answer = Pds::parse(body, &mut list);
    print::answer(rt, "pds", answer)?;
    if let Ok((pds, n)) = answer
        && let Some(entries) = list.get(..n)
    {
        print_colors(rt, entries, pds.palette_id, *named)?;
    }
    print::list(rt, &list)?;
    println!(rt; "")
}

pub(crate) fn ods(rt: &impl Print, input: &[u8]) -> io::Result<()> {
    print::answer(rt, "ods", Ods::parse(input))?;
    println!(rt; "")
}

pub(crate) fn sets(rt: &impl Print, input: &[u8]) -> io::Result<()> {
    print::filled(
        rt,
        "sets",
        &mut [[9u64; 3]; 3],
        |list| parse_display_sets(input, list),
    )
}

// The objects of a set.
pub(crate) fn objects(rt: &impl Print, input: &[u8], set: u16) -> io::Result<()> {
    let mut scratch = [9u8; 12];
    let mut list = [[9u64; 7]; 3];
    let set = usize::from(set);
    // Of an accepted call the records that `list_objects` gives are printed: they are the same.
    let mut listed = list;
    let mut answer = list_objects(input, set, &mut listed);
    if answer.is_ok() {
        answer = reassemble_objects(input, set, &mut scratch, &mut list);
    }
    if answer.is_ok() {
        list = listed;
    }
    print::answer(rt, "objects", answer)?;
    print::list(rt, &list)?;
    print::list(rt, &scratch)?;
    println!(rt; "")
}

pub(crate) fn cards(rt: &impl Print, input: &[u8]) -> io::Result<()> {
    print::filled(rt, "cards", &mut [9u8; 71], |out| write_cards(input, out))
}

pub(crate) fn bitmap(rt: &impl Print, input: &[u8], width: u16, height: u16) -> io::Result<()> {
    print::filled(
        rt,
        "bitmap",
        &mut [9u8; 20],
        |pixels| decode_rle(input, width, height, pixels),
    )
}

// Y, Cb and Cr.
pub(crate) fn color(rt: &impl Print, input: &[u8]) -> io::Result<()> {
    let [y, cb, cr, ..] = input else {
        return Ok(());
    };
    let Rgb8 { r, g, b } = ycbcr709_to_rgb(*y, *cb, *cr);
    println!(rt; "color {r} {g} {b}")
}

// A set, painted.
pub(crate) fn plane(rt: &impl Print, input: &[u8], set: u16) -> io::Result<()> {
    let mut scratch = [9u8; 40];
    let mut pixels = [9u8; 52];
    let answer = render(input, usize::from(set), &mut scratch, &mut pixels);
    print::answer(rt, "plane", answer)?;
    print::list(rt, &scratch)?;
    print::list(rt, &pixels)?;
    println!(rt; "")
}
