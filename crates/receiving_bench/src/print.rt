// What came, in words, on standard output. No contract can say what is written, so these functions have none: they are
// proved to be safe and to end.
use crate::group_lines::print_written;
use crate::lines::Line;
use crate::phrases::meaning;
use crate::quotes::print_quoted;
use origin::Origin;
use std::net::Ipv6Addr;
use std::{fmt, io};

// A time, and a delay or an age, in seconds to thousandths.
#[derive(Clone, Copy)]
struct Time(u64);

impl fmt::Display for Time {
    fn fmt<W: fmt::Write>(&self, f: &mut fmt::Formatter<W>) -> fmt::Result {
        let thousandths = self.0 % 4294967296 * 1000 / 4294967296;
        write!(f, "{}.{thousandths:03} s", self.0 / 4294967296)
    }
}

// A time in seconds, and its units in hex where there are any.
#[derive(Clone, Copy)]
struct FullTime(u64);

impl fmt::Display for FullTime {
    fn fmt<W: fmt::Write>(&self, f: &mut fmt::Formatter<W>) -> fmt::Result {
        write!(f, "{}", self.0 / 4294967296)?;
        let units = self.0 % 4294967296;
        if units != 0 {
            write!(f, "+0x{units:08x}")?;
        }
        write!(f, " s")
    }
}

// A delay: in units where it is less than a thousandth of a second.
#[derive(Clone, Copy)]
struct Delay(u64);

impl fmt::Display for Delay {
    fn fmt<W: fmt::Write>(&self, f: &mut fmt::Formatter<W>) -> fmt::Result {
        if self.0 < 4294968 {
            write!(f, "{} x 2^-32 s", self.0)
        } else {
            write!(f, "{}", Time(self.0))
        }
    }
}

// A target's presented time.
#[derive(Clone, Copy)]
struct Presented(u64);

impl fmt::Display for Presented {
    fn fmt<W: fmt::Write>(&self, f: &mut fmt::Formatter<W>) -> fmt::Result {
        if self.0 == 0 {
            write!(f, "by arrival")
        } else {
            write!(f, "presented {}", Time(self.0))
        }
    }
}

// What a call's answer stands for.
#[derive(Clone, Copy)]
struct Answer(u64);

impl fmt::Display for Answer {
    fn fmt<W: fmt::Write>(&self, f: &mut fmt::Formatter<W>) -> fmt::Result {
        if self.0 != 0 {
            write!(f, "refused with {}, ", self.0)?;
        }
        write!(f, "{}", meaning(self.0))
    }
}

// The answers of the calls that a datagram made, as its line has them.
#[derive(Clone, Copy)]
struct Answers([u64; 8]);

impl fmt::Display for Answers {
    fn fmt<W: fmt::Write>(&self, f: &mut fmt::Formatter<W>) -> fmt::Result {
        let mut separator = "";
        for answer in self.0 {
            if let Some(number) = answer.checked_sub(1) {
                write!(f, "{separator}{}", Answer(number))?;
                separator = ", ";
            }
        }
        Ok(())
    }
}

// An IPv4-mapped address by its last four bytes, any other by all sixteen.
#[derive(Clone, Copy)]
struct Sender(Origin);

impl fmt::Display for Sender {
    fn fmt<W: fmt::Write>(&self, f: &mut fmt::Formatter<W>) -> fmt::Result {
        match Ipv6Addr::from(self.0.address).to_ipv4_mapped() {
            Some(ipv4) => write!(f, "{ipv4}")?,
            None => {
                for byte in self.0.address {
                    write!(f, "{byte:02x}")?;
                }
            }
        }
        write!(f, " port {}", self.0.port)
    }
}

// Of two words, the second where a step found a difference.
fn either(different: u64, same: &'static str, other: &'static str) -> &'static str {
    if different == 0 { same } else { other }
}

// A value of a line, as the letter says.
fn print_value(rt: &impl Print, letter: u8, n: u64, line: Line) -> io::Result<()> {
    match letter {
        b'n' => print!(rt; "{n}"),
        b'h' => print!(rt; "{}", n / 4294967296),
        b't' => print!(rt; "{}", Time(n)),
        b'e' => print!(rt; "{}", FullTime(n)),
        b'd' => print!(rt; "{}", Delay(n)),
        b'a' => print!(rt; "{}", Answer(n)),
        b'l' => print!(rt; "{}", Answers(line.values)),
        b'p' => print!(rt; "{}", Presented(n)),
        b'u' => print!(rt; "{}", either(n, "unchanged", "CHANGED")),
        b'b' => print!(rt; "{}", either(n, "the text's bytes", "other bytes")),
        b'q' => print_quoted(rt, line.text),
        b'w' => print_written(rt, n),
        _ => print!(rt; "{}", Sender(line.origin)),
    }
}

// A piece of a sentence that stands behind a $: the value, and the text up to the next.
fn print_piece(rt: &impl Print, piece: &str, line: Line) -> io::Result<()> {
    let [letter, index, text @ ..] = piece.as_bytes() else {
        return Ok(());
    };
    let index = index.wrapping_sub(b'0') as usize;
    let value = line.values.get(index).copied().unwrap_or(0);
    print_value(rt, *letter, value, line)?;
    rt.write_all(text)
}

// The sentence of a line's form, with the line's values.
pub(crate) fn print_came(rt: &impl Print, line: Line) -> io::Result<()> {
    let mut pieces = line.form.sentence().split('$');
    if let Some(text) = pieces.next() {
        print!(rt; "{text}")?;
    }
    for piece in pieces {
        print_piece(rt, piece, line)?;
    }
    Ok(())
}
