// The steps on the line of a site file that carries a group number. Each gives its line with the answer that came.
use crate::forms::Form;
use crate::lines::Line;
use crate::quotes::{MOST_TEXT, print_text, put_text};
use sdp::{read_sync_group, write_sync_group};
use std::io;

// What the reader answers on the line that the text has.
fn read_line(line: Line<'_>) -> Line<'_> {
    let mut d = [0u8; MOST_TEXT];
    let n = put_text(line.text, &mut d);
    match read_sync_group(&d[..n]) {
        Ok(group) => line.came(Form::ReadLine, &[u64::from(group)]),
        Err(refused) => line.came(Form::ReadLineRefused, &[refused.number()]),
    }
}

// Whether a buffer holds other than a text in its first so many bytes, and zeros behind them.
fn is_other_line(text: &[u8], d: &[u8; MOST_TEXT], n: usize) -> bool {
    let mut characters = [0u8; MOST_TEXT];
    put_text(text, &mut characters) != n || characters != *d
}

// What the writer answers, and whether it writes another line than the text has. Where the text has a refusal instead,
// the form says that this did not come.
fn write_line(line: Line<'_>) -> Line<'_> {
    let mut d = [0u8; MOST_TEXT];
    let group = line.values[0];
    match write_sync_group(line.value32(0), &mut d) {
        Ok(n) => {
            let other = is_other_line(line.text, &d, n);
            line.came(Form::WriteLine, &[group, u64::from(other)])
        }
        Err(refused) => line.came(Form::WriteLineRefused, &[group, refused.number()]),
    }
}

// What came of a step on such a line.
pub(crate) fn line_step(line: Line<'_>) -> Line<'_> {
    match line.form {
        Form::ReadLine | Form::ReadLineRefused => read_line(line),
        _ => write_line(line),
    }
}

// The line that the writer writes, as a text.
pub(crate) fn print_written(rt: &impl Print, group: u64) -> io::Result<()> {
    let mut d = [0u8; MOST_TEXT];
    match write_sync_group((group & 0xffff_ffff) as u32, &mut d) {
        Ok(n) => print_text(rt, &d[..n]),
        Err(_) => Ok(()),
    }
}
