// Reads a bench sheet on standard input, runs it, and prints each operation's answer and bit count, or where the sheet is bad.
#![tactic(auto)]

ghost use Rattle.std.specs.Prelude.{◌≤◌, length, IfOk};

use std::io;
use std::io::Read;

// One byte more than a sheet may have: a longer one is too long, whatever follows.
const INPUT_BYTES: usize = sheets::MAX_BYTES + 1;

// Two numbers of the row a line.
#[tactic(auto, using(sheet_effects::proofs::Running::bench_few))]
fn run(rt: &impl Print, sheet: &[u8]) -> io::Result<()> {
    let mut row = [0u32; sheet_run::ROW_NUMBERS];
    let ran = sheet_run::bench_run(sheet, &mut row);
    match ran.verdict {
        Ok(_) => {
            for line in row[..ran.numbers as usize].chunks_exact(2) {
                println!(rt; "{} {}", line[0], line[1])?;
            }
            Ok(())
        }
        Err(place) => println!(rt; "bad {place}"),
    }
}

// Reads until the buffer is full or the input ends: how many bytes of it are read. A loop, since `read_exact` doesn't say how many came
// before the end, and `read_to_end` asks for memory that may run out.
fn read_full(input: &mut impl Read, bytes: &mut [u8]) -> io::Result<usize>
    ensures { IfOk result (λ n. n ≤ length bytes.new) }
{
    let mut done = 0;
    while done < bytes.len() {
        let n = input.read(&mut bytes[done..])?;
        if n == 0 {
            break;
        }
        done += n;
    }
    Ok(done)
}

fn main(rt: HostRuntime) -> io::Result<()> {
    let mut bytes = [0u8; INPUT_BYTES];
    let n = read_full(&mut rt.stdin(), &mut bytes)?;
    run(&rt, &bytes[..n])
}
