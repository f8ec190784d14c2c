// Datagrams that a unit sends, an RR and a report or a farewell, and those of a server, an RR and settings; and whether
// the writers write what the text has.
use crate::words::{BUFFER, put_bytes};
use idms::{Placed, Refusal, Report, Settings};
use register::{Record, Target};
use writer::{write_report, write_settings};

// An RR. Its source number is left 0, since no item has it.
const RECEIVER_REPORT: [u8; 8] = [0x80, 201, 0, 1, 0, 0, 0, 0];

// Whether words of hex are other bytes than these.
fn are_other_bytes(words: &[u8], d: &[u8]) -> bool {
    let mut buffer = [0u8; BUFFER];
    let n = put_bytes(words, &mut buffer);
    &buffer[..n] != d
}

// Whether a report is written otherwise.
pub(crate) fn is_other_report(x: Record, words: &[u8]) -> bool {
    let mut d = [0u8; 40];
    let _ = write_report(report_of(x), &mut d);
    are_other_bytes(words, &d)
}

// Whether the settings that a target gives are written otherwise.
pub(crate) fn are_other_settings(x: Target, sender: u32, words: &[u8]) -> bool {
    let mut d = [0u8; 36];
    let _ = write_settings(settings_of(x, sender), &mut d);
    are_other_bytes(words, &d)
}

// A member's report, as the writer takes it.
fn report_of(x: Record) -> Report {
    let r = x.report;
    Report {
        sender: x.source,
        payload_type: r.payload_type,
        p: r.p != 0,
        group: r.group,
        media: r.media,
        received: r.received,
        rtp: r.rtp,
        presented: r.presented,
    }
}

// The settings that a target gives.
fn settings_of(x: Target, sender: u32) -> Settings {
    Settings {
        sender,
        media: x.media,
        group: x.group,
        received: x.received,
        rtp: x.rtp,
        presented: x.presented,
    }
}

// The item of an RR and the XR packet of 40 bytes that the writer makes.
pub(crate) fn read_report(x: Record, reduced: bool) -> Result<Placed, Refusal> {
    let mut d = [0u8; 48];
    d[..8].copy_from_slice(&RECEIVER_REPORT);
    let _ = write_report(report_of(x), &mut d[8..]);
    rtcp::item_at(&d, reduced, 0)
}

// The settings that a target gives, as a reader of the datagram finds them: behind an RR, the settings packet of 36
// bytes that the writer makes.
pub(crate) fn read_settings(x: Target, sender: u32) -> Result<Placed, Refusal> {
    let mut d = [0u8; 44];
    d[..8].copy_from_slice(&RECEIVER_REPORT);
    let _ = write_settings(settings_of(x, sender), &mut d[8..]);
    rtcp::item_at(&d, false, 0)
}

// The item of an RR and a BYE packet of one source.
pub(crate) fn read_farewell(source: u32, reduced: bool) -> Result<Placed, Refusal> {
    let mut d = [0u8; 16];
    d[..8].copy_from_slice(&RECEIVER_REPORT);
    d[8..12].copy_from_slice(&[0x81, 203, 0, 1]);
    d[12..].copy_from_slice(&source.to_be_bytes());
    rtcp::item_at(&d, reduced, 0)
}
