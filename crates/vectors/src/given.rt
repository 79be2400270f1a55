// What the sheet gives unless a line says otherwise.
use model::{Inputs, PageSetting};
use registers::Registers;

// D, and the words of its image.
pub const PAGES: u32 = 16;

pub const WORDS: usize = 14848;

pub const ONES: u32 = 0xFFFF_FFFF;

// ---- rights

pub const NO_RIGHT: u8 = 0;

pub const READ_RIGHT: u8 = 1;

pub const PROGRAM_RIGHT: u8 = 2;

pub const ALL_RIGHTS: u8 = 7;

// ---- registers

// Registers that no call has been made on.
pub fn zeros() -> Registers {
    [0; registers::COUNT]
}

// Every right on the information pages of a type.
fn open_pages(s: &mut Registers, bank: u32, info: u8) {
    let page = PageSetting {
        on: true,
        rights: ALL_RIGHTS,
    };
    for p in 0..geometry::info_count(info) {
        let _ = settings::set_info(s, bank, info, p, page);
    }
}

fn open_bank(s: &mut Registers, bank: u32) {
    for info in 0..3 {
        open_pages(s, bank, info);
    }
    let _ = settings::set_erase(s, bank, true);
}

// With provision on and the seeds not locked; not yet initialised.
pub fn all_rights() -> Registers {
    let mut s = zeros();
    let inputs = Inputs {
        provision: true,
        locked: false,
    };
    let _ = lifecycle::reset(&mut s, PAGES);
    let _ = inputs::set_inputs(&mut s, inputs);
    let _ = settings::set_default(&mut s, ALL_RIGHTS);
    for bank in 0..2 {
        open_bank(&mut s, bank);
    }
    s
}

pub fn ready() -> Registers {
    let image = [ONES; WORDS];
    let mut s = all_rights();
    let _ = lifecycle::initialise(&mut s, &image);
    s
}
