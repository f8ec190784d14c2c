// Texts in double quotes. In one \r is CR and \n is LF; every other character stands for itself.
ghost use Rattle.std.specs.Counts.{IsPrefixLen};

use std::io;

// How many characters stand between the quotes at most, and the length of a buffer for them.
pub(crate) const MOST_TEXT: usize = 128;

// What stands between the quotes at the front of a text, and what is behind them.
pub(crate) fn quoted(text: &[u8]) -> Option<(&[u8], &[u8])> {
    let inside = text.strip_prefix(b"\"")?;
    let count = inside.iter().position(|c| *c == b'"')?;
    let (inside, rest) = inside.split_at_checked(count)?;
    if MOST_TEXT < count {
        return None;
    }
    Some((inside, rest.strip_prefix(b"\"")?))
}

// The first character that is meant, and what is behind it.
fn character(inside: &[u8]) -> Option<(u8, &[u8])> {
    match inside {
        [] => None,
        [b'\\', b'r', rest @ ..] => Some((b'\r', rest)),
        [b'\\', b'n', rest @ ..] => Some((b'\n', rest)),
        [c, rest @ ..] => Some((*c, rest)),
    }
}

// Puts the characters that are meant to the front of a buffer. Answers how many.
pub(crate) fn put_text(inside: &[u8], buffer: &mut [u8]) -> usize
    ensures { IsPrefixLen result buffer.new }
{
    let mut rest = inside;
    for (count, place) in buffer.iter_mut().enumerate() {
        let Some((c, behind)) = character(rest) else {
            return count;
        };
        *place = c;
        rest = behind;
    }
    buffer.len()
}

// What stands between the quotes of a text, in quotes. It need not be UTF-8.
pub(crate) fn print_quoted(rt: &impl Print, inside: &[u8]) -> io::Result<()> {
    rt.write_all(b"\"")?;
    rt.write_all(inside)?;
    rt.write_all(b"\"")
}

fn print_character(rt: &impl Print, c: u8) -> io::Result<()> {
    match c {
        b'\r' => rt.write_all(b"\\r"),
        b'\n' => rt.write_all(b"\\n"),
        _ => rt.write_all(&[c]),
    }
}

// Characters as a text that means them, in quotes.
pub(crate) fn print_text(rt: &impl Print, characters: &[u8]) -> io::Result<()> {
    rt.write_all(b"\"")?;
    for c in characters {
        print_character(rt, *c)?;
    }
    rt.write_all(b"\"")
}
