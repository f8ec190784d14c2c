// The steps that look at the table, or at what a writer writes. Each gives its line with the answer that came.
use crate::datagrams::{are_other_settings, is_other_report};
use crate::forms::Form;
use crate::lines::Line;
use crate::measures::{NO_TARGET, delay_of, lateness};
use crate::scene::Scene;
use origin::Origin;
use refusals::RefusalNumber;
use register::{Reading, Record, Target};
use table::Table;
use times::ntp_age;

// What choosing answers at a reading.
pub(crate) fn choice_at(table: Table, reading: Reading) -> Result<Target, RefusalNumber> {
    table.choose(reading).choice
}

// A target's fields. Behind them stands how far its group and media source are from the table's.
fn target_line<'a>(line: Line<'a>, x: Target, scene: Scene) -> Line<'a> {
    let group = x.group.wrapping_sub(scene.group);
    let media = x.media.wrapping_sub(scene.media);
    line.came(
        Form::Choose,
        &[
            u64::from(x.source),
            x.received,
            u64::from(x.rtp),
            x.presented,
            u64::from(x.counted),
            u64::from(group),
            u64::from(media),
        ],
    )
}

fn choice_line<'a>(
    line: Line<'a>,
    choice: Result<Target, RefusalNumber>,
    scene: Scene,
) -> Line<'a> {
    match choice {
        Ok(x) => target_line(line, x, scene),
        Err(refused) => line.came(Form::ChooseRefused, &[refused.number()]),
    }
}

// The member at the place that a line has.
fn place_line<'a>(line: Line<'a>, table: &Table) -> Line<'a> {
    let place = line.values[0];
    let shown = table.member_at(place as usize);
    if shown.held == 0 {
        return line.came(Form::PlaceFree, &[place]);
    }
    let x = shown.member.record;
    Line {
        origin: x.origin,
        ..line.came(Form::Place, &[place, u64::from(x.source)])
    }
}

// The tally of the member at a place, 0 where it is free.
fn tally_at(table: &Table, place: usize) -> u64 {
    u64::from(table.member_at(place).member.tally)
}

// The tally at the place that a line has, if a member is there.
fn tally_line<'a>(line: Line<'a>, table: &Table) -> Line<'a> {
    let place = line.values[0];
    if table.member_at(place as usize).held == 0 {
        return line.came(Form::TallyNone, &[place]);
    }
    line.came(Form::Tally, &[place, tally_at(table, place as usize)])
}

// All that a place holds. Where it is free, that is zeros.
#[derive(Clone, Copy, PartialEq, Eq)]
struct Held {
    held: u32,
    source: u32,
    origin: Origin,
    received: u64,
    group: u32,
    media: u32,
    rtp: u32,
    presented: u32,
    payload_type: u8,
    p: u8,
    tally: u32,
}

// What a place holds, with tally 0 where its tally is excepted.
fn held_at(table: Table, place: usize, but: Option<usize>) -> Held {
    let shown = table.member_at(place);
    let x = shown.member.record;
    let r = x.report;
    Held {
        held: shown.held,
        source: x.source,
        origin: x.origin,
        received: r.received,
        group: r.group,
        media: r.media,
        rtp: r.rtp,
        presented: r.presented,
        payload_type: r.payload_type,
        p: r.p,
        tally: if but == Some(place) {
            0
        } else {
            shown.member.tally
        },
    }
}

// Whether a place of two tables does not hold the same, but for the tally at one place.
fn are_other_members(a: Table, b: Table, but: Option<usize>) -> bool {
    (0..64).any(|place| held_at(a, place, but) != held_at(b, place, but))
}

// What came of a step that asks for members and target as before the last call, all of them or but for a tally.
pub(crate) fn unchanged<'a>(
    table: Table,
    earlier: Table,
    line: Line<'a>,
    scene: Scene,
) -> Line<'a> {
    let now = choice_line(line, choice_at(table, scene.reading), scene);
    let then = choice_line(line, choice_at(earlier, scene.reading), scene);
    let target = u64::from(now != then);
    if line.form == Form::Unchanged {
        let members = are_other_members(table, earlier, None);
        return line.came(line.form, &[u64::from(members), target]);
    }
    let place = line.values[0];
    let members = are_other_members(table, earlier, Some(place as usize));
    let tally = tally_at(&table, place as usize);
    line.came(line.form, &[place, tally, u64::from(members), target])
}

// What came of a step that asks for the target.
fn look_at_target<'a>(table: &Table, line: Line<'a>, scene: Scene) -> Line<'a> {
    let choice = choice_at(*table, scene.reading);
    let target = choice.unwrap_or(NO_TARGET);
    let form = line.form;
    match form {
        Form::Choose | Form::ChooseRefused => choice_line(line, choice, scene),
        Form::Lateness => line.came(form, &[lateness(target, scene.reading)]),
        Form::Age => line.came(form, &[ntp_age(scene.reading.ntp, target.received)]),
        Form::Delay => line.came(form, &[delay_of(target)]),
        // The settings of the target.
        _ => {
            let other = are_other_settings(target, line.value32(0), line.text);
            line.with_value(1, u64::from(other))
        }
    }
}

// What came of a step that calls nothing. The table is lent, and chosen among only where the target is asked for.
pub(crate) fn look<'a>(table: &Table, line: Line<'a>, scene: Scene, record: Record) -> Line<'a> {
    let form = line.form;
    match form {
        Form::Members => line.came(form, &[u64::from(table.count_members())]),
        Form::Place | Form::PlaceFree => place_line(line, table),
        Form::Tally | Form::TallyNone => tally_line(line, table),
        Form::WriteReport => line.with_value(0, u64::from(is_other_report(record, line.text))),
        _ => look_at_target(table, line, scene),
    }
}
