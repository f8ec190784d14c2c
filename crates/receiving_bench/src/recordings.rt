// The steps on a site recording, which is put together in a buffer.
ghost use Rattle.std.specs.Prelude.{◌≤◌};

use crate::forms::Form;
use crate::lines::Line;
use crate::words::{BUFFER, put_bytes};
use refusals::RefusalNumber;
use replay::{ENTRY_LIMIT, ENTRY_ROW, Replayed, replay};

// The bytes of a recording, at the front of a buffer.
#[derive(Clone, Copy)]
pub(crate) struct Recording {
    buffer: [u8; 4096],
    length: usize,
    ghost within: { length ≤ 4096 },
}

impl Recording {
    pub(crate) const EMPTY: Recording = Recording {
        buffer: [0; BUFFER],
        length: 0,
    };

    fn bytes(&self) -> &[u8] {
        &self.buffer[..self.length]
    }

    // Puts the bytes of words of hex behind those that there are.
    fn append(&mut self, words: &[u8]) {
        let start = self.length;
        let more = put_bytes(words, &mut self.buffer[start..]);
        self.length = start + more;
    }

    // What a step does to the recording.
    pub(crate) fn step(&mut self, line: Line) {
        match line.form {
            Form::Recording => {
                self.length = 0;
                self.append(line.text);
            }
            Form::Append => self.append(line.text),
            Form::Cut => self.length = self.length.saturating_sub(line.values[0] as usize),
            _ => {}
        }
    }
}

// How many entries there are, or the refusal.
fn count_line(line: Line<'_>, came: Result<Replayed, RefusalNumber>) -> Line<'_> {
    match came {
        Ok(replayed) => line.came(Form::Replay, &[replayed.entries as u64]),
        Err(refused) => line.came(Form::ReplayRefused, &[refused.number()]),
    }
}

// The row of the entry at a line's index, and zeros behind the last.
fn entry_line<'a>(line: Line<'a>, rows: &[[u64; ENTRY_ROW]]) -> Line<'a> {
    let index = line.values[0];
    let row = rows.get(index as usize).copied().unwrap_or([0; ENTRY_ROW]);
    line.came(Form::ReplayEntry, &[index, row[0], row[1], row[2]])
}

// The target's source and presented time, if there is a target.
fn target_line(line: Line<'_>, came: Result<Replayed, RefusalNumber>) -> Line<'_> {
    match came.and_then(|replayed| replayed.choice) {
        Ok(x) => line.came(Form::ReplayTarget, &[u64::from(x.source), x.presented]),
        Err(_) => line.came(Form::ReplayNoTarget, &[]),
    }
}

// What came of a step that replays the recording.
pub(crate) fn replay_step<'a>(line: Line<'a>, recording: &Recording) -> Line<'a> {
    let mut rows = [[0u64; ENTRY_ROW]; ENTRY_LIMIT];
    let came = replay(recording.bytes(), rows.as_flattened_mut());
    match line.form {
        Form::Replay | Form::ReplayRefused => count_line(line, came),
        Form::ReplayEntry => entry_line(line, &rows),
        _ => target_line(line, came),
    }
}
