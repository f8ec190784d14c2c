// Prints a line for each case: its name, and then what the writer answered or the bytes of the buffer.
use refusals::RefusalNumber;
use std::{fmt, io};

// Bytes as words of eight upper-case hex digits, as the bench cases have them, each word behind a space.
#[derive(Clone, Copy)]
struct Words<'a>(&'a [u8]);

impl fmt::Display for Words<'_> {
    fn fmt<W: fmt::Write>(&self, f: &mut fmt::Formatter<W>) -> fmt::Result {
        for word in self.0.chunks(4) {
            write!(f, " ")?;
            for byte in word {
                write!(f, "{byte:02X}")?;
            }
        }
        Ok(())
    }
}

pub(crate) fn print_words(rt: &impl Print, name: &str, bytes: &[u8]) -> io::Result<()> {
    println!(rt; "{name}:{}", Words(bytes))
}

// How many bytes were written, or the refusal's number.
pub(crate) fn print_answer(
    rt: &impl Print,
    name: &str,
    answer: Result<usize, RefusalNumber>,
) -> io::Result<()> {
    match answer {
        Ok(n) => println!(rt; "{name}: wrote {n}"),
        Err(number) => println!(rt; "{name}: refused {number}"),
    }
}
