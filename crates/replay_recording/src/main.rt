// Runs the site recording on standard input through the member table and prints the lines of document 02, E7: how many
// entries there are, a line for each, and the target; or the refusal alone. The library decides everything; no contract
// can say what is read or written, so these functions are proved to be safe and to end.
#![tactic(auto)]

ghost use Rattle.std.specs.Prelude.{◌≤◌};
ghost use Rattle.replay.specs.Recording.{entry_limit};

use input::read_full;
use refusals::RefusalNumber;
use register::Target;
use replay::{ENTRY_LIMIT, ENTRY_ROW, RECORDING_LIMIT, Replayed, replay};
use std::io;

// One byte more than a recording may have, so that the library refuses a longer one.
const INPUT: usize = RECORDING_LIMIT + 1;

// One line for each of the first so many rows: the entry's index, items, items accepted, and first refusal or 0.
fn print_entries(
    rt: &impl Print,
    rows: &[[u64; ENTRY_ROW]; ENTRY_LIMIT],
    n: usize,
) -> io::Result<()>
    requires { n ≤ entry_limit }
{
    for (index, [items, accepted, refusal]) in rows[..n].iter().enumerate() {
        println!(rt; "{index} {items} {accepted} {refusal}")?;
    }
    Ok(())
}

// One line: the target's source, and its presented time as seconds and units of 2^-32 s.
fn print_choice(rt: &impl Print, choice: Result<Target, RefusalNumber>) -> io::Result<()> {
    match choice {
        Ok(x) => println!(rt;
            "target {} {} {}",
            x.source,
            x.presented / 4294967296,
            x.presented % 4294967296
        ),
        Err(_) => println!(rt; "target none"),
    }
}

fn print_replay(rt: &impl Print, f: &[u8]) -> io::Result<()> {
    let mut rows = [[0u64; ENTRY_ROW]; ENTRY_LIMIT];
    match replay(f, rows.as_flattened_mut()) {
        Ok(Replayed { entries, choice }) => {
            println!(rt; "capture {entries}")?;
            print_entries(rt, &rows, entries)?;
            print_choice(rt, choice)
        }
        Err(number) => println!(rt; "refused {number}"),
    }
}

fn main(rt: HostRuntime) -> io::Result<()> {
    let mut recording = [0u8; INPUT];
    let n = read_full(&mut rt.reader(), &mut recording)?;
    print_replay(&rt, &recording[..n])
}
