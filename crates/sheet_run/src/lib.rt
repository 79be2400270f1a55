// Bench sheets, judged and run on the registers. The specs of `sheet_effects` say what a run leaves.
#![tactic(auto)]

ghost use Rattle.std.specs.Prelude.{◌≡◌, [], ◌+◌, ◌≤◌, length};
ghost use Rattle.std.proofs.lemmas.List.Edits.{sets};
ghost use Rattle.model.specs.State.{flash};
ghost use Rattle.sheets.specs.Sheet.{verdict_of};
ghost use Rattle.sheet_effects.specs.Run.{performed, run, bench_run, printed_of};

use calls::ToldBits;
use expansions::Places;
use model::ERASED;
use registers::Registers;
use sheet_effects::{Line, Ran};
use sheet_reader::Reader;
use sheets::{MAX_BYTES, MAX_ENTRIES, Request, Verdict, WIDE_MAX_ENTRIES};

// A row has two numbers for each entry that may run.
pub const ROW_NUMBERS: usize = 2 * WIDE_MAX_ENTRIES;

pub type Row = [u32; ROW_NUMBERS];

// D of the bench, and the words of its image.
const PAGES: u32 = 16;

const IMAGE_WORDS: usize = 14848;

// ---- the verdict

// What follows the block is looked at before the expansion.
#[tactic(auto, using(sheets::proofs::Counting::verdict_ways))]
pub fn judge(sheet: &[u8]) -> Verdict
    ensures { result ≡ verdict_of sheet.now }
{
    if MAX_BYTES < sheet.len() {
        return Err(MAX_BYTES);
    }
    let reader = Reader::new(sheet);
    let block = reader.block()?;
    if !reader.at(block.next).is_at_end() {
        return Err(block.next);
    }
    if block.value <= MAX_ENTRIES {
        Ok(block.value)
    } else {
        Err(0)
    }
}

// ---- the run

// The entry whose tag stands at `at`: what it prints, if it is an operation.
#[tactic(auto, unfolding(sheet_effects::specs::Run::performed, sheet_effects::specs::Run::requested))]
fn perform(s: &mut Registers, image: &mut [u32], sheet: &[u8], at: usize) -> Option<Line>
    ensures { record { registers = s.new; flash = flash image.new; printed = printed_of result } ≡ performed sheet.now at (record { registers = s.old; flash = flash image.old; printed = [] }) }
{
    match sheet_entries::request_at(sheet, at) {
        Request::Rights(rights) => {
            let _ = settings::set_default(s, rights);
            None
        }
        Request::Whole { op, words } => {
            let mut buffer = sheet_entries::loaded(sheet, op, words);
            let told = ToldBits::from(whole::run(s, image, op, &mut buffer));
            Some(Line {
                answer: told.answer,
                bits: told.bits,
            })
        }
    }
}

// A line's numbers, from place `n` of the row on: the place after them.
fn write(row: &mut Row, n: usize, line: Option<Line>) -> usize
    requires { n + 2 ≤ 8192 }
    ensures { (row.new ≡ sets row.old n (printed_of line)) × (result ≡ n + length (printed_of line)) }
{
    let Some(line) = line else {
        return n;
    };
    row[n] = line.answer;
    row[n + 1] = line.bits;
    n + 2
}

// A good sheet's entries in order; a bad one is refused before any.
pub fn run(s: &mut Registers, image: &mut [u32], sheet: &[u8], row: &mut Row) -> Ran
    ensures { record { told = result; registers = s.new; flash = flash image.new; row = row.new } ≡ run s.old (flash image.old) sheet.now row.old }
{
    let verdict = judge(sheet);
    match verdict {
        Err(_) => Ran {
            verdict,
            numbers: 0,
        },
        Ok(count) => {
            let mut places: Places = [0; WIDE_MAX_ENTRIES];
            expansions::expand(sheet, &mut places);
            let mut n = 0;
            for place in &places[..count as usize] {
                let line = perform(s, image, sheet, *place);
                n = write(row, n, line);
            }
            Ran {
                verdict,
                numbers: n as u32,
            }
        }
    }
}

// The same from the state in which the program starts.
pub fn bench_run(sheet: &[u8], row: &mut Row) -> Ran
    ensures { record { told = result; row = row.new } ≡ bench_run sheet.now row.old }
{
    let mut image = [ERASED; IMAGE_WORDS];
    let mut s: Registers = [0u32; registers::COUNT];
    let _ = lifecycle::reset(&mut s, PAGES);
    let _ = lifecycle::initialise(&mut s, &image);
    run(&mut s, &mut image, sheet, row)
}
