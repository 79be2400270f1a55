// The calls for C and Rust: the registers where they lie, and plain numbers and slices beside them. include/lurgabel.h declares
// them and has the calls that a bench uses. A name carries the layout's number, so that a library which does not fit the header
// does not link.
#![tactic(auto)]

ghost use Rattle.std.specs.Prelude.{◌≡◌};
ghost use Rattle.model.specs.State.{flash};
ghost use Rattle.registers.specs.Registers.{is_on};
ghost use Rattle.calls.specs.Asked.{byte_of, inputs_of, region_of, setting_of, operation_of, host_request_of};
ghost use Rattle.calls.specs.Calls.{reset_in, set_inputs_in, set_region_in, set_default_in, set_info_in, set_erase_in, clear_in, initialise_in, rma_in, start_in, step_in, push_in, pop_in, whole_in, host_read_in, view_in, round_in};
ghost use Rattle.driving.specs.Drives.{driven_in};
ghost use Rattle.scans.specs.Scans.{write_in, take_in};

use calls::{
    AskedOperation, AskedRegion, AskedSetting, ToldAnswer, ToldBits, ToldHostWord, ToldRound,
    ToldSeeds, ToldStart, ToldStep, ToldWord,
};
use driving::Driven;
use model::{ByteAddress, Page};
use registers::Registers;
use scans::{ToldScan, ToldWrite};

// ---- reset, inputs and settings

#[unsafe(no_mangle)]
pub extern "C" fn lurgabel_layout4_reset(s: &mut Registers, pages: u32) -> u32
    ensures { record { told = result; registers = s.new } ≡ reset_in s.old pages }
{
    calls::number(lifecycle::reset(s, pages))
}

#[unsafe(no_mangle)]
pub extern "C" fn lurgabel_layout4_set_inputs(s: &mut Registers, provision: u32, locked: u32) -> u32
    ensures { record { told = result; registers = s.new } ≡ set_inputs_in s.old (inputs_of provision locked) }
{
    calls::number(inputs::set_inputs(s, calls::inputs(provision, locked)))
}

#[unsafe(no_mangle)]
pub extern "C" fn lurgabel_layout4_set_region(
    s: &mut Registers,
    number: u32,
    region: AskedRegion,
) -> u32
    ensures { record { told = result; registers = s.new } ≡ set_region_in s.old number (region_of region) }
{
    calls::number(settings::set_region(s, number, region.into()))
}

#[unsafe(no_mangle)]
pub extern "C" fn lurgabel_layout4_set_default_rights(s: &mut Registers, rights: u32) -> u32
    ensures { record { told = result; registers = s.new } ≡ set_default_in s.old (byte_of rights) }
{
    calls::number(settings::set_default(s, calls::byte(rights)))
}

#[unsafe(no_mangle)]
pub extern "C" fn lurgabel_layout4_set_info_page(
    s: &mut Registers,
    bank: u32,
    info: u32,
    page: u32,
    setting: AskedSetting,
) -> u32
    ensures { record { told = result; registers = s.new } ≡ set_info_in s.old bank (byte_of info) page (setting_of setting) }
{
    calls::number(settings::set_info(s, bank, calls::byte(info), page, setting.into()))
}

#[unsafe(no_mangle)]
pub extern "C" fn lurgabel_layout4_set_bank_erase(s: &mut Registers, bank: u32, on: u32) -> u32
    ensures { record { told = result; registers = s.new } ≡ set_erase_in s.old bank (is_on on) }
{
    calls::number(settings::set_erase(s, bank, calls::flag(on)))
}

#[unsafe(no_mangle)]
pub extern "C" fn lurgabel_layout4_clear_errors(s: &mut Registers) -> u32
    ensures { record { told = result; registers = s.new } ≡ clear_in s.old }
{
    calls::number(inputs::clear(s))
}

// ---- initialise and RMA

#[unsafe(no_mangle)]
pub extern "C" fn lurgabel_layout4_initialise(s: &mut Registers, image: &[u32]) -> ToldSeeds
    ensures { record { told = result; registers = s.new } ≡ initialise_in s.old (flash image.now) }
{
    lifecycle::initialise(s, image).into()
}

#[unsafe(no_mangle)]
pub extern "C" fn lurgabel_layout4_rma(s: &mut Registers, image: &mut [u32]) -> u32
    ensures { record { told = result; registers = s.new; flash = flash image.new } ≡ rma_in s.old (flash image.old) }
{
    calls::number(lifecycle::rma(s, image))
}

// ---- operations by steps

#[unsafe(no_mangle)]
pub extern "C" fn lurgabel_layout4_start(s: &mut Registers, operation: AskedOperation) -> ToldAnswer
    ensures { record { told = result; registers = s.new } ≡ start_in s.old (operation_of operation) }
{
    operations::start(s, operation.into()).into()
}

#[unsafe(no_mangle)]
pub extern "C" fn lurgabel_layout4_step(s: &mut Registers, image: &mut [u32]) -> ToldStep
    ensures { record { told = result; registers = s.new; flash = flash image.new } ≡ step_in s.old (flash image.old) }
{
    steps::step(s, image).into()
}

#[unsafe(no_mangle)]
pub extern "C" fn lurgabel_layout4_push(s: &mut Registers, word: u32) -> u32
    ensures { record { told = result; registers = s.new } ≡ push_in s.old word }
{
    calls::number(queueing::push(s, word))
}

#[unsafe(no_mangle)]
pub extern "C" fn lurgabel_layout4_pop(s: &mut Registers) -> ToldWord
    ensures { record { told = result; registers = s.new } ≡ pop_in s.old }
{
    queueing::pop(s).into()
}

// ---- whole operations

#[unsafe(no_mangle)]
pub extern "C" fn lurgabel_layout4_run(
    s: &mut Registers,
    image: &mut [u32],
    operation: AskedOperation,
    buffer: &mut [u32],
) -> ToldBits
    ensures { record { told = result; registers = s.new; flash = flash image.new; buffer = buffer.new } ≡ whole_in s.old (flash image.old) (operation_of operation) buffer.old }
{
    whole::run(s, image, operation.into(), buffer).into()
}

// For at most so many steps.
#[unsafe(no_mangle)]
pub extern "C" fn lurgabel_layout4_run_for(
    s: &mut Registers,
    image: &mut [u32],
    operation: AskedOperation,
    buffer: &mut [u32],
    steps: u32,
) -> Driven
    ensures { record { told = result; registers = s.new; flash = flash image.new; buffer = buffer.new } ≡ driven_in steps s.old (flash image.old) (operation_of operation) buffer.old }
{
    driving::drive(s, image, operation.into(), buffer, steps)
}

// ---- the host

#[unsafe(no_mangle)]
pub extern "C" fn lurgabel_layout4_host_read(
    s: &Registers,
    image: &[u32],
    address: u32,
) -> ToldHostWord
    ensures { result ≡ host_read_in s.now (flash image.now) (record { 0 = address }) }
{
    host::host_read(s, image, ByteAddress(address)).into()
}

#[unsafe(no_mangle)]
pub extern "C" fn lurgabel_layout4_view(s: &Registers, image: &[u32], page: u32) -> ToldStart
    ensures { result ≡ view_in s.now (flash image.now) (record { 0 = page }) }
{
    host::view_start(s, image, Page(page)).into()
}

// ---- turns of host and step

#[unsafe(no_mangle)]
pub extern "C" fn lurgabel_layout4_round(
    s: &mut Registers,
    image: &mut [u32],
    host: u32,
    address: u32,
    step: u32,
) -> ToldRound
    ensures { record { told = result; registers = s.new; flash = flash image.new } ≡ round_in s.old (flash image.old) (host_request_of host address) (is_on step) }
{
    let asked = calls::host_request(host, address);
    rounds::round(s, image, asked, calls::flag(step)).into()
}

// ---- the scan queue, for at most so many steps

#[unsafe(no_mangle)]
pub extern "C" fn lurgabel_layout4_write_scan_for(
    s: &mut Registers,
    image: &mut [u32],
    page: u32,
    other: u32,
    bytes: &[u8],
    steps: u32,
) -> ToldWrite
    ensures { record { told = result; registers = s.new; flash = flash image.new } ≡ write_in steps s.old (flash image.old) page other bytes.now }
{
    scans::write(s, image, page, other, bytes, steps)
}

#[unsafe(no_mangle)]
pub extern "C" fn lurgabel_layout4_take_scan_for(
    s: &mut Registers,
    image: &mut [u32],
    page: u32,
    other: u32,
    steps: u32,
) -> ToldScan
    ensures { record { told = result; registers = s.new; flash = flash image.new } ≡ take_in steps s.old (flash image.old) page other }
{
    scans::take(s, image, page, other, steps)
}
