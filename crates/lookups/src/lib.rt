// The rulings of one page, on the state where it lies: who decides a page, and with which rights.
#![tactic(auto)]

ghost use Rattle.std.specs.Prelude.{◌≡◌, ◌%◌, get_or};
ghost use Rattle.model.specs.Rights.{data_ruling, info_ruling, ruling_at, page_grants};
ghost use Rattle.model.specs.State.{page_off};
ghost use Rattle.registers.specs.Layout.{default_at};
ghost use Rattle.registers.specs.Registers.{regions_of, info_of, settings_of, inputs_at, stands_for};

use model::{Decider, INFO_SETTINGS, Operation, Page, PageSetting, Ruling};
use registers::Registers;

// The lowest-numbered region that is on and holds the page decides, alone; if there is none, the default rights.
fn data_ruling(s: &Registers, p: Page) -> Ruling
    ensures { result ≡ data_ruling 0 (regions_of s.now) (get_or s.now default_at 0 % 256) p }
{
    'ruled: {
        for i in 0..8u8 {
            let g = registers::region(s, i as usize);
            if rights::decides(p, g) {
                break 'ruled Ruling {
                    rights: g.rights,
                    decider: Decider::Region(i),
                };
            }
        }
        Ruling {
            rights: registers::default_rights(s),
            decider: Decider::Default,
        }
    }
}

fn page_setting(s: &Registers, page: usize) -> PageSetting
    ensures { result ≡ get_or (info_of s.now) page page_off }
{
    if page < INFO_SETTINGS {
        return registers::page_setting(s, page);
    }
    PageSetting {
        on: false,
        rights: 0,
    }
}

// A closed seed page is denied by the seed lock, whatever its setting says.
#[tactic(auto, unfolding(model::specs::Rights::info_ruling))]
fn info_ruling(s: &Registers, page: usize) -> Ruling
    ensures { result ≡ info_ruling (inputs_at s.now) (settings_of s.now) page }
{
    let inputs = registers::inputs(s);
    if rights::seed_closed(inputs, page) {
        return Ruling {
            rights: 0,
            decider: Decider::SeedLock,
        };
    }
    let rights = rights::page_rights(page_setting(s, page));
    Ruling {
        rights,
        decider: Decider::PageSetting,
    }
}

// The rights of a page of either partition, and who decided.
#[tactic(auto, unfolding(model::specs::Rights::ruling_at, registers::specs::Registers::stands_for))]
pub fn ruling_at(s: &Registers, information: bool, t: u8, p: Page) -> Ruling
    ensures { result ≡ ruling_at (stands_for s.now).setup information t p }
{
    if information {
        let d = registers::pages(s);
        let bank = geometry::bank_of(d, p);
        let page = geometry::page_in_bank(d, p);
        return info_ruling(s, geometry::info_index(bank, t, page));
    }
    data_ruling(s, p)
}

pub fn page_grants(s: &Registers, o: Operation, p: Page) -> bool
    ensures { result ≡ page_grants (stands_for s.now).setup o p }
{
    let information = places::is_information(o);
    let ruling = ruling_at(s, information, o.info, p);
    rights::grants(ruling.rights, places::right_needed(o))
}
