// The steps that call the table. Each gives the answer that came and the table afterwards.
ghost use Rattle.std.specs.Prelude.{◌<◌};

use crate::datagrams::{read_farewell, read_report};
use crate::forms::Form;
use crate::lines::{Line, push_answer};
use crate::scene::{Scene, first_record};
use crate::words::{BUFFER, put_bytes};
use burst::check_burst;
use idms::{Placed, Refusal};
use origin::Origin;
use register::{Opening, Reading};
use table::{Answered, Table, Taken};

// The table after a step, and the step's line with what came.
#[derive(Clone, Copy)]
pub(crate) struct Told<'a> {
    pub table: Table,
    pub line: Line<'a>,
}

// The text's number where an item has no answer, as only a report and a farewell have one.
const NO_ANSWER: u64 = 255;

// What the reader gave, taken in.
fn taken(table: Table, found: Result<Placed, Refusal>, origin: Origin, reading: Reading) -> Taken {
    match found {
        Ok(placed) => table.intake(placed.item, origin, reading),
        Err(_) => Taken {
            outcome: None,
            table,
        },
    }
}

// The same, where one answer is asked for.
fn sent(
    table: Table,
    found: Result<Placed, Refusal>,
    origin: Origin,
    reading: Reading,
) -> Answered {
    let Taken { outcome, table } = taken(table, found, origin, reading);
    Answered {
        number: outcome.unwrap_or(NO_ANSWER),
        table,
    }
}

// A new table, or the old one where the opening is refused.
fn opened(table: Table, opening: Opening) -> Answered {
    let answered = Table::open(opening);
    if answered.number == 0 {
        answered
    } else {
        Answered { table, ..answered }
    }
}

// A source that sends P1's report, and the last number that was not 0.
fn filled_one(before: Answered, source: u32, scene: Scene) -> Answered {
    let x = first_record(source);
    let found = read_report(x, scene.reduced);
    let after = sent(before.table, found, x.origin, scene.reading);
    if after.number == 0 {
        Answered {
            number: before.number,
            ..after
        }
    } else {
        after
    }
}

// The sources from the first to the last, and the last where none stands before it.
fn filled(table: Table, first: u32, last: u32, scene: Scene) -> Answered {
    let mut answered = Answered { number: 0, table };
    for source in first..last {
        answered = filled_one(answered, source, scene);
    }
    filled_one(answered, last, scene)
}

// A burst before any report is tried, and the table as it was.
fn checked(table: Table, reports: u32, length: u32) -> Answered {
    let number = match check_burst(reports as usize, length as usize) {
        Ok(_) => 0,
        Err(refused) => refused.number(),
    };
    Answered { number, table }
}

// The call of a step.
fn called(table: Table, line: Line, scene: Scene) -> Answered {
    let reading = scene.reading;
    let x = scene.record_of(line);
    match line.form {
        Form::Report => table.report(x, reading),
        Form::SendReport => sent(table, read_report(x, scene.reduced), x.origin, reading),
        Form::Farewell => table.farewell(x.source, x.origin),
        Form::Sweep => table.sweep(reading),
        Form::Burst => checked(table, x.source, line.value32(1)),
        Form::Fill => filled(table, x.source, line.value32(1), scene),
        Form::Open => {
            let opening = Opening {
                group: x.source,
                media: line.value32(1),
                rate: line.value32(2),
            };
            opened(table, opening)
        }
        _ => sent(
            table,
            read_farewell(x.source, scene.reduced),
            x.origin,
            reading,
        ),
    }
}

// The place of a call's answer: that of the last value that its form has.
fn answer_place(form: Form) -> usize
    ensures { result < 8 }
{
    match form {
        Form::Sweep => 0,
        Form::Farewell | Form::SendFarewell => 1,
        Form::Fill | Form::Burst => 2,
        Form::Open => 3,
        _ => 4,
    }
}

pub(crate) fn call<'a>(table: Table, line: Line<'a>, scene: Scene) -> Told<'a> {
    let Answered { number, table } = called(table, line, scene);
    Told {
        table,
        line: line.with_value(answer_place(line.form), number),
    }
}

// The items of a datagram, taken in one after the other.
fn take_items<'a>(table: Table, line: Line<'a>, d: &[u8], count: usize, scene: Scene) -> Told<'a> {
    let mut table = table;
    let mut answers = [0; 8];
    for i in 0..count {
        let found = rtcp::item_at(d, scene.reduced, i);
        let taken = taken(table, found, line.origin, scene.reading);
        table = taken.table;
        if let Some(number) = taken.outcome {
            push_answer(&mut answers, number);
        }
    }
    let form = if answers == [0; 8] {
        Form::TakeNone
    } else {
        Form::Take
    };
    Told {
        table,
        line: line.came(form, &answers),
    }
}

fn take<'a>(table: Table, line: Line<'a>, d: &[u8], scene: Scene) -> Told<'a> {
    match rtcp::count_items(d, scene.reduced) {
        Ok(count) => take_items(table, line, d, count, scene),
        Err(r) => Told {
            table,
            line: line.came(Form::TakeRefused, &[r.number.number(), r.place as u64]),
        },
    }
}

// A step that takes the scene's datagram in.
pub(crate) fn take_datagram<'a>(table: Table, line: Line<'a>, scene: Scene) -> Told<'a> {
    let mut buffer = [0u8; BUFFER];
    let n = put_bytes(scene.datagram, &mut buffer);
    take(table, line, &buffer[..n], scene)
}
