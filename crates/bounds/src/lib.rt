// The parts of a state, each within its bounds.
#![tactic(auto)]

ghost use Rattle.std.specs.Prelude.{◌≡◌};
ghost use Rattle.model.specs.Settings.{info_exists};
ghost use Rattle.model.specs.Valid.{rights_fit, region_fits, page_fits, errors_fit};

use model::{Errors, PageSetting, Region};

// ---- the settings pass check 13

pub fn rights_fit(rights: u8) -> bool
    ensures { result ≡ rights_fit rights }
{
    rights <= 7
}

pub fn region_fits(d: u32, g: Region) -> bool
    ensures { result ≡ region_fits d g }
{
    let first = g.first;
    let end = first.0 as usize + g.count as usize;
    let limit = 2 * (d as usize);
    let inside = end <= limit;
    let known = g.rights <= 7;
    inside & known
}

pub fn page_fits(p: PageSetting) -> bool
    ensures { result ≡ page_fits p }
{
    p.rights <= 7
}

// An information page exists, by its bank, its type and its number in the type.
pub fn info_exists(bank: u32, t: u8, page: u32) -> bool
    ensures { result ≡ info_exists bank t page }
{
    let count = geometry::info_count(t);
    (bank < 2) & ((t < 3) & (page < count))
}

// ---- the error record

pub fn errors_fit(e: Errors) -> bool
    ensures { result ≡ errors_fit e }
{
    let address = e.address;
    let none = address.0 == 0;
    (e.malformed | (e.range | (e.window | e.denied))) | none
}
