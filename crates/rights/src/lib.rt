// What decides the rights of a page: a region that is on and holds it, its own setting, the seed lock.
#![tactic(auto)]

ghost use Rattle.std.specs.Prelude.{◌≡◌, ◌<◌};
ghost use Rattle.model.specs.Rights.{grants, decides, seed_closed, page_rights};

use model::{CREATOR_PAGE, Inputs, OWNER_PAGE, Page, PageSetting, Region};

// Whether one right is among rights that are added up.
pub fn grants(rights: u8, right: u8) -> bool
    requires { 0 < right }
    ensures { result ≡ grants rights right }
{
    rights / right % 2 == 1
}

pub fn decides(p: Page, g: Region) -> bool
    ensures { result ≡ decides p g }
{
    let first = g.first;
    let from = first.0 as usize;
    let end = from + g.count as usize;
    let page = p.0 as usize;
    let after = from <= page;
    let before = page < end;
    g.on & (after & before)
}

// The seed pages' places among the 26 settings: the first 10 are the pages of bank 0 and type 0.
const CREATOR: usize = CREATOR_PAGE as usize;

const OWNER: usize = OWNER_PAGE as usize;

pub fn seed_closed(i: Inputs, page: usize) -> bool
    ensures { result ≡ seed_closed i page }
{
    let creator = page == CREATOR;
    let owner = page == OWNER;
    let both = i.provision & !i.locked;
    (creator & !both) | (owner & !i.provision)
}

// Switched off means denied.
pub fn page_rights(s: PageSetting) -> u8
    ensures { result ≡ page_rights s }
{
    if s.on { s.rights } else { 0 }
}
