// The settings, on registers: calls that are lent no image.
#![tactic(auto)]

ghost use Rattle.std.specs.Prelude.{◌≡◌};
ghost use Rattle.model.specs.Refusals.{number_of};
ghost use Rattle.calls.specs.Calls.{set_region_in, set_default_in, set_info_in, set_erase_in};

use model::{Answer, PageSetting, Region};
use registers::Registers;

// A region, by its number 0 to 7.
#[tactic(auto, using(crate::proofs::Configured::region_refused, crate::proofs::Configured::region_exists, crate::proofs::Configured::region_kept))]
pub fn set_region(s: &mut Registers, number: u32, g: Region) -> Answer
    ensures { record { told = number_of result; registers = s.new } ≡ set_region_in s.old number g }
{
    let fits = bounds::region_fits(registers::pages(s), g);
    inputs::setting_answer(s, (number < 8) & fits)?;
    registers::put_region(s, number as usize, g);
    Ok(())
}

// The rights of the data pages that no region decides.
#[tactic(auto, using(crate::proofs::Configured::default_refused, crate::proofs::Configured::default_kept))]
pub fn set_default(s: &mut Registers, rights: u8) -> Answer
    ensures { record { told = number_of result; registers = s.new } ≡ set_default_in s.old rights }
{
    inputs::setting_answer(s, bounds::rights_fit(rights))?;
    registers::put_default(s, rights);
    Ok(())
}

// An information page, by its bank, its type and its number in the type.
#[tactic(auto, using(crate::proofs::Configured::info_refused, crate::proofs::Configured::info_below, crate::proofs::Configured::info_kept))]
pub fn set_info(s: &mut Registers, bank: u32, t: u8, page: u32, p: PageSetting) -> Answer
    ensures { record { told = number_of result; registers = s.new } ≡ set_info_in s.old bank t page p }
{
    let exists = bounds::info_exists(bank, t, page);
    let fits = bounds::page_fits(p);
    inputs::setting_answer(s, exists & fits)?;
    let index = geometry::info_index(bank, t, page);
    registers::put_page(s, index, p);
    Ok(())
}

// A bank's erase permission.
#[tactic(auto, using(crate::proofs::Configured::erase_refused, crate::proofs::Configured::bank_exists, crate::proofs::Configured::erase_kept))]
pub fn set_erase(s: &mut Registers, bank: u32, on: bool) -> Answer
    ensures { record { told = number_of result; registers = s.new } ≡ set_erase_in s.old bank on }
{
    inputs::setting_answer(s, bank < 2)?;
    registers::put_permission(s, bank as usize, on);
    Ok(())
}
