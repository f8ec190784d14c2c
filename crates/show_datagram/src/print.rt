// Prints what the reader answers to standard output: a line for a refusal, a count or an item, its numbers in decimal.
// No contract can say what is written, so these functions have none: they are proved to be safe and to end.
use idms::{Item, Placed, Refusal};
use rtcp::Cursor;
use std::{fmt, io};

// More turns than a datagram has items: each item takes a word, of which there are 512 at most, and a packet's first
// word is none.
const TURNS: usize = 512;

// An NTP time as two numbers: seconds, and units of 2^-32 s.
#[derive(Clone, Copy)]
struct Time(u64);

impl fmt::Display for Time {
    fn fmt<W: fmt::Write>(&self, f: &mut fmt::Formatter<W>) -> fmt::Result {
        write!(f, "{} {}", self.0 / 4294967296, self.0 % 4294967296)
    }
}

// A short NTP time as two numbers: seconds, and units of 2^-16 s.
#[derive(Clone, Copy)]
struct ShortTime(u32);

impl fmt::Display for ShortTime {
    fn fmt<W: fmt::Write>(&self, f: &mut fmt::Formatter<W>) -> fmt::Result {
        write!(f, "{} {}", self.0 / 65536, self.0 % 65536)
    }
}

// An item and its place, as one line.
#[derive(Clone, Copy)]
struct ItemLine(Placed);

impl fmt::Display for ItemLine {
    fn fmt<W: fmt::Write>(&self, f: &mut fmt::Formatter<W>) -> fmt::Result {
        let Placed { place, item } = self.0;
        match item {
            Item::Report(r) => write!(
                f,
                "report at {place} source {} payload-type {} p {} group {} media {} received {} rtp {} presented {}",
                r.sender,
                r.payload_type,
                r.p as u8,
                r.group,
                r.media,
                Time(r.received),
                r.rtp,
                ShortTime(r.presented)
            ),
            Item::Settings(s) => write!(
                f,
                "settings at {place} source {} group {} media {} received {} rtp {} presented {}",
                s.sender,
                s.group,
                s.media,
                Time(s.received),
                s.rtp,
                Time(s.presented)
            ),
            Item::Farewell(source) => write!(f, "farewell at {place} source {source}"),
        }
    }
}

fn print_refusal(rt: &impl Print, r: Refusal) -> io::Result<()> {
    println!(rt; "refused {} at {}", r.number, r.place)
}

// One line: the item at an index, or the refusal.
pub(crate) fn print_found(rt: &impl Print, found: Result<Placed, Refusal>) -> io::Result<()> {
    match found {
        Ok(p) => println!(rt; "{}", ItemLine(p)),
        Err(r) => print_refusal(rt, r),
    }
}

// The items from a cursor on. The cursor's end stops it and not the count, so that the lines show it where the two
// differ.
fn print_from(rt: &impl Print, d: &[u8], start: Cursor) -> io::Result<()> {
    let mut cursor = start;
    for _ in 0..TURNS {
        let Some((p, next)) = rtcp::next_item(d, cursor) else {
            break;
        };
        println!(rt; "{}", ItemLine(p))?;
        cursor = next;
    }
    Ok(())
}

// A datagram's refusal, or how many items it has and a line for each. `reduced` says whether reduced size was agreed.
pub(crate) fn print_datagram(rt: &impl Print, d: &[u8], reduced: bool) -> io::Result<()> {
    match rtcp::open_datagram(d, reduced) {
        Ok((n, start)) => {
            println!(rt; "items {n}")?;
            print_from(rt, d, start)
        }
        Err(r) => print_refusal(rt, r),
    }
}
