// Reads a datagram from standard input and prints its items, or its refusal. The argument `--reduced-size` says that
// reduced size was agreed with its sender. With the argument `records` it runs the cases that standard input holds as
// records.
#![tactic(auto)]

mod print;
mod records;

use crate::print::print_datagram;
use crate::records::run_cases;
use input::read_full;
use std::env::FillError;
use std::io;
use std::rt::Env;

// What the arguments ask for.
#[derive(Clone, Copy)]
enum Request {
    // The items of a datagram, and whether reduced size was agreed.
    Show { reduced: bool },
    // The cases that standard input holds as records.
    Run,
}

fn show_input(rt: &(impl Input + Print), reduced: bool) -> io::Result<()> {
    // Longer than any datagram that is not refused, so a part of a longer one gets the whole one's refusal.
    let mut buf = [0u8; 4096];
    let n = read_full(&mut rt.reader(), &mut buf)?;
    print_datagram(rt, &buf[..n], reduced)
}

fn run_input(rt: &(impl Input + Print)) -> io::Result<()> {
    // The records of all cases are some 50,000 bytes.
    let mut buf = [0u8; 65536];
    let n = read_full(&mut rt.reader(), &mut buf)?;
    run_cases(rt, &buf[..n])
}

// Whether there is a second argument. The program's own name is at 0.
fn has_second_argument(rt: &impl Env) -> bool {
    !matches!(rt.arg(2, &mut [0u8; 1]), Err(FillError::NotPresent))
}

// There is none where the arguments are no words of the usage, of which none is longer than `--reduced-size`.
fn requested(rt: &impl Env) -> Option<Request> {
    let mut argument = [0u8; 14];
    let n = match rt.arg(1, &mut argument) {
        Ok(n) => n,
        Err(FillError::TooLong) => return None,
        Err(FillError::NotPresent) => return Some(Request::Show { reduced: false }),
    };
    if has_second_argument(rt) {
        return None;
    }
    match &argument[..n] {
        b"--reduced-size" => Some(Request::Show { reduced: true }),
        b"records" => Some(Request::Run),
        _ => None,
    }
}

fn main(rt: HostRuntime) -> io::Result<()> {
    match requested(&rt) {
        Some(Request::Show { reduced }) => show_input(&rt, reduced),
        Some(Request::Run) => run_input(&rt),
        None => println!(rt; "usage: show_datagram [--reduced-size | records]"),
    }
}
