// The steps that check a settings packet on the table. Each gives the verdict that came and the table afterwards.
ghost use Rattle.std.specs.Prelude.{◌<◌};

use crate::calls::Told;
use crate::datagrams::read_settings;
use crate::forms::{Form, Packet, Verdict};
use crate::lines::Line;
use crate::looks::choice_at;
use crate::measures::NO_TARGET;
use crate::scene::Scene;
use crate::words::{BUFFER, put_bytes};
use idms::{Item, Placed, Refusal, Settings};
use refusals::RefusalNumber;
use table::Table;

// The sender of the packets that no datagram of the text has.
const SENDER: u32 = 1;

// Printed as the refusal where there is no packet to check: no number of the text, which has 32 bits.
const NO_PACKET: u64 = 4294967296;

// The packet that a step tells.
fn settings_told(line: Line) -> Settings {
    Settings {
        sender: SENDER,
        media: line.value32(1),
        group: line.value32(0),
        received: line.values[2],
        rtp: line.value32(3),
        presented: line.values[4],
    }
}

// The packet that a reader found.
fn settings_found(found: Result<Placed, Refusal>) -> Option<Settings> {
    match found.ok()?.item {
        Item::Settings(s) => Some(s),
        _ => None,
    }
}

// The target's settings, of zeros where there is no target, written and read back.
fn own_settings(table: Table, scene: Scene) -> Option<Settings> {
    let target = choice_at(table, scene.reading).unwrap_or(NO_TARGET);
    settings_found(read_settings(target, SENDER))
}

// The settings at an index of the scene's datagram.
fn item_settings(line: Line, scene: Scene) -> Option<Settings> {
    let mut buffer = [0u8; BUFFER];
    let n = put_bytes(scene.datagram, &mut buffer);
    settings_found(rtcp::item_at(&buffer[..n], scene.reduced, line.values[0] as usize))
}

// How many values a step tells of its packet and slack, the slack last. A refusal's number stands behind them.
fn told_values(packet: Packet) -> usize
    ensures { result < 8 }
{
    match packet {
        Packet::Told => 6,
        Packet::Own => 1,
        Packet::Item => 2,
    }
}

// The line with the verdict that came.
fn verdict_line<'a>(line: Line<'a>, packet: Packet, verdict: Result<bool, u64>) -> Line<'a> {
    let (verdict, number) = match verdict {
        Ok(true) => (Verdict::Yes, 0),
        Ok(false) => (Verdict::No, 0),
        Err(number) => (Verdict::Refused, number),
    };
    Line {
        form: Form::Check(packet, verdict),
        ..line.with_value(told_values(packet), number)
    }
}

// The check of a step.
pub(crate) fn check_settings<'a>(
    table: Table,
    line: Line<'a>,
    packet: Packet,
    scene: Scene,
) -> Told<'a> {
    let (settings, slack) = match packet {
        Packet::Told => (Some(settings_told(line)), line.value32(5)),
        Packet::Own => (own_settings(table, scene), line.value32(0)),
        Packet::Item => (item_settings(line, scene), line.value32(1)),
    };
    let Some(settings) = settings else {
        return Told {
            table,
            line: verdict_line(line, packet, Err(NO_PACKET)),
        };
    };
    let checked = table.check_settings(settings, scene.reading, slack);
    let verdict = checked.verdict.map_err(RefusalNumber::number);
    Told {
        table: checked.table,
        line: verdict_line(line, packet, verdict),
    }
}
