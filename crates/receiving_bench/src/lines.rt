// A step of the text, taken apart by its form.
ghost use Rattle.std.specs.Prelude.{◌<◌};

use crate::forms::{Form, Step};
use crate::numbers::{field, mapped, number, origin, presented, time};
use crate::quotes::quoted;
use crate::words::are_words;
use origin::Origin;

// A line's form, its values in the order of its words, the answer last, its origin, and its words of hex or what it has
// between quotes. The answers of a datagram's calls end at the last of the values, each one more than its number and 0
// where there is none.
#[derive(Clone, Copy, PartialEq, Eq)]
pub(crate) struct Line<'a> {
    pub form: Form,
    pub values: [u64; 8],
    pub origin: Origin,
    pub text: &'a [u8],
}

// What was read of a line: it has so many values, and there is a rest to read, and text behind the line.
#[derive(Clone, Copy)]
struct Matching<'a> {
    line: Line<'a>,
    count: usize,
    rest: &'a [u8],
    behind: &'a [u8],
}

// Puts one answer more behind those of the calls before.
pub(crate) fn push_answer(answers: &mut [u64; 8], number: u64) {
    answers.rotate_left(1);
    answers[7] = number.saturating_add(1);
}

// Answers one behind the other, at most seven, each behind a space.
fn answers(text: &[u8]) -> Option<([u64; 8], &[u8])> {
    let mut values = [0; 8];
    let mut rest = text;
    for _ in 0..7 {
        let Some(behind) = rest.strip_prefix(b" ") else {
            break;
        };
        let (answer, behind) = number(behind)?;
        if 254 < answer {
            return None;
        }
        push_answer(&mut values, u64::from(answer));
        rest = behind;
    }
    Some((values, rest))
}

impl<'a> Line<'a> {
    // What came in place of what the line expects: a form and its first values.
    pub(crate) fn came(self, form: Form, numbers: &[u64]) -> Self {
        let mut values = [0; 8];
        for (value, number) in values.iter_mut().zip(numbers) {
            *value = *number;
        }
        Line {
            form,
            values,
            ..self
        }
    }

    // The line with another value at a place.
    pub(crate) fn with_value(self, place: usize, value: u64) -> Self
        requires { place < 8 }
    {
        let mut values = self.values;
        values[place] = value;
        Line { values, ..self }
    }

    // The low 32 bits of a value.
    pub(crate) fn value32(self, place: usize) -> u32
        requires { place < 8 }
    {
        (self.values[place] & 0xffff_ffff) as u32
    }
}

impl<'a> Matching<'a> {
    // One value more.
    fn push(&mut self, read: Option<(u64, &'a [u8])>) -> Option<()> {
        let (value, rest) = read?;
        *self.line.values.get_mut(self.count)? = value;
        self.count = self.count.saturating_add(1);
        self.rest = rest;
        Some(())
    }

    fn read_number(&mut self) -> Option<()> {
        let (value, rest) = number(self.rest)?;
        self.push(Some((u64::from(value), rest)))
    }

    fn read_answers(&mut self) -> Option<()> {
        let (values, rest) = answers(self.rest)?;
        self.line.values = values;
        self.rest = rest;
        Some(())
    }

    fn read_origin(&mut self) -> Option<()> {
        let (origin, rest) = origin(self.rest, self.behind)?;
        self.line.origin = origin;
        self.rest = rest;
        Some(())
    }

    // All that is left, as words of hex.
    fn read_words(&mut self) -> Option<()> {
        if !are_words(self.rest) {
            return None;
        }
        self.line.text = self.rest;
        self.rest = &[];
        Some(())
    }

    fn read_quoted(&mut self) -> Option<()> {
        let (text, rest) = quoted(self.rest)?;
        self.line.text = text;
        self.rest = rest;
        Some(())
    }

    // What a character of the pattern asks for. It is read in place: a line is tried in each form, and most of a pattern
    // stands for itself.
    fn read_part(&mut self, mark: u8) -> Option<()> {
        match mark {
            b'#' => self.read_number(),
            b'@' => self.push(time(self.rest)),
            b'?' => self.push(field(self.rest)),
            b'!' => self.push(presented(self.rest)),
            b'%' => self.read_origin(),
            b'&' => self.read_answers(),
            b'*' => self.read_words(),
            b'"' => self.read_quoted(),
            _ => {
                self.rest = self.rest.strip_prefix(&[mark])?;
                Some(())
            }
        }
    }
}

// The line that a text tells in a form, if it has that form to its end.
pub(crate) fn matched_with<'a>(step: &Step, text: &'a [u8], behind: &'a [u8]) -> Option<Line<'a>> {
    let mut matching = Matching {
        line: Line {
            form: step.form,
            values: [0; 8],
            origin: Origin {
                address: mapped([0; 4]),
                port: 0,
            },
            text: &[],
        },
        count: 0,
        rest: text,
        behind,
    };
    for mark in step.pattern.as_bytes() {
        matching.read_part(*mark)?;
    }
    matching.rest.is_empty().then_some(matching.line)
}
