// Runs bench cases of the two writers: the messages of P5 and P3, the refusals and their order, and the bytes that a
// call must leave alone.
#![tactic(auto)]

mod print;

use crate::print::{print_answer, print_words};
use idms::{Report, Settings};
use std::io;
use writer::{write_report, write_settings};

// The report of P5: received 998 s, presented 998.75 s.
const P5: Report = Report {
    sender: 20,
    payload_type: 33,
    p: true,
    group: 42,
    media: 7,
    received: 0x000003E600000000,
    rtp: 8820000,
    presented: 0x03E6C000,
};

// The settings of P3: the times of the report of P5, with presented in full.
const P3: Settings = Settings {
    sender: 1,
    media: 7,
    group: 42,
    received: 0x000003E600000000,
    rtp: 8820000,
    presented: 0x000003E6C0000000,
};

// A group that no message may have.
const RESERVED_GROUP: u32 = 4294967295;

// A refusal would leave the zeros.
fn show_messages(rt: &impl Print) -> io::Result<()> {
    let mut report = [0u8; 40];
    let _ = write_report(P5, &mut report);
    print_words(rt, "report p5", &report)?;
    let mut settings = [0u8; 36];
    let _ = write_settings(P3, &mut settings);
    print_words(rt, "settings p3", &settings)
}

// Refusals, and the empty group, which may be written. The last case has two faults, and 11 comes before 10.
fn answer_reports(rt: &impl Print) -> io::Result<()> {
    let mut buf = [0u8; 40];
    let payload = Report {
        payload_type: 128,
        ..P5
    };
    let arrival = Report {
        p: false,
        presented: 1,
        ..P5
    };
    let reserved = Report {
        group: RESERVED_GROUP,
        ..P5
    };
    let empty = Report { group: 0, ..P5 };
    print_answer(
        rt,
        "report payload type 128",
        write_report(payload, &mut buf),
    )?;
    print_answer(
        rt,
        "report p 0 with presented 1",
        write_report(arrival, &mut buf),
    )?;
    print_answer(
        rt,
        "report group 4294967295",
        write_report(reserved, &mut buf),
    )?;
    print_answer(rt, "report group 0", write_report(empty, &mut buf))?;
    print_answer(rt, "report into 39 bytes", write_report(P5, &mut buf[..39]))?;
    print_answer(
        rt,
        "report payload type 128 into 0 bytes",
        write_report(payload, &mut []),
    )
}

// The same for settings, of which only the group can be out of range.
fn answer_settings(rt: &impl Print) -> io::Result<()> {
    let mut buf = [0u8; 36];
    let reserved = Settings {
        group: RESERVED_GROUP,
        ..P3
    };
    let empty = Settings { group: 0, ..P3 };
    print_answer(
        rt,
        "settings group 4294967295",
        write_settings(reserved, &mut buf),
    )?;
    print_answer(rt, "settings group 0", write_settings(empty, &mut buf))?;
    print_answer(
        rt,
        "settings into 35 bytes",
        write_settings(P3, &mut buf[..35]),
    )?;
    print_answer(
        rt,
        "settings group 4294967295 into 0 bytes",
        write_settings(reserved, &mut []),
    )
}

// The word behind a message, in a buffer with room for more.
fn show_behind(rt: &impl Print) -> io::Result<()> {
    let mut buf = [0xAAu8; 44];
    let _ = write_report(P5, &mut buf);
    print_words(rt, "behind report p5", &buf[40..])
}

// The whole buffer, in which the refused message has room.
fn show_untouched(rt: &impl Print) -> io::Result<()> {
    let mut buf = [0xAAu8; 36];
    let reserved = Settings {
        group: RESERVED_GROUP,
        ..P3
    };
    let _ = write_settings(reserved, &mut buf);
    print_words(rt, "untouched by settings group 4294967295", &buf)
}

fn main(rt: HostRuntime) -> io::Result<()> {
    show_messages(&rt)?;
    answer_reports(&rt)?;
    answer_settings(&rt)?;
    show_behind(&rt)?;
    show_untouched(&rt)
}
