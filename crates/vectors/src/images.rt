// Image lengths, and where the creator page and bank 1 begin.
use super::asked::{Asked, Kind, data, information};
use super::drive::Flash;
use super::given;
use super::given::{ONES, PAGES, WORDS};
use super::told::Answered;
use model::Page;
use registers::Registers;
use std::io;

// The words of the images of D = 10 and D = 256, the least and the largest.
const LEAST: usize = 11776;

const LARGEST: usize = 137728;

// ---- image lengths

fn reset(rt: &impl Print, pages: u32) -> io::Result<Registers> {
    let mut s = given::zeros();
    let answer = Answered::from(lifecycle::reset(&mut s, pages));
    println!(rt; "reset, D={pages}: {answer}")?;
    Ok(s)
}

fn initialise(rt: &impl Print, s: &Registers, image: &[u32]) -> io::Result<()> {
    let mut now = *s;
    let pages = registers::pages(s);
    let words = image.len();
    let answer = Answered::from(lifecycle::initialise(&mut now, image));
    println!(rt; "initialise, D={pages}, image of {words} words: {answer}")
}

// The image, and then without its last word.
fn length(rt: &impl Print, pages: u32, image: &[u32]) -> io::Result<()> {
    let s = reset(rt, pages)?;
    initialise(rt, &s, image)?;
    match image.split_last() {
        Some((_, without_last)) => initialise(rt, &s, without_last),
        None => Ok(()),
    }
}

pub fn lengths(rt: &impl Print) -> io::Result<()> {
    let image = [ONES; LARGEST];
    length(rt, PAGES, &image[..WORDS])?;
    reset(rt, 9)?;
    length(rt, 10, &image[..LEAST])?;
    length(rt, 256, &image)
}

// ---- where the creator page and bank 1 begin

fn first_changed(rt: &impl Print, s: &Registers, o: Asked) -> io::Result<()> {
    let mut flash = Flash {
        registers: *s,
        image: [ONES; WORDS],
    };
    let answer = flash.by_steps(o, 0).answer;
    let first = flash.first_with_zeros();
    println!(rt; "{o}: {answer}, first changed bus word {first}")
}

pub fn beginnings(rt: &impl Print, s: &Registers) -> io::Result<()> {
    let creator = geometry::first_word(geometry::special_page(PAGES, 1));
    let bank = geometry::first_word(geometry::data_image_page(PAGES, 1, 0));
    let address = geometry::page_start(Page(PAGES));
    println!(rt; "creator page begins at bus word {}", creator.0)?;
    println!(rt;
        "bank 1 begins at bus word {}, byte address 0x{:04x}",
        bank.0, address.0
    )?;
    first_changed(rt, s, information(Kind::Program, 0, 0x0400, 1))?;
    first_changed(rt, s, data(Kind::Program, 0x4000, 1))
}
