// Every function that C and Rust call, under the names of include/prunepocket.h. Each is thin: it calls a proved
// function of a crate below and hands its answer on as plain numbers. `prunepocket_c` exports them.
#![tactic(auto)]

mod loudspeaker;
mod members;
mod recordings;
mod site_file;

ghost use Rattle.std.specs.Prelude.{◌≡◌};
ghost use Rattle.datagram.specs.Answers.{item_count};
ghost use Rattle.rtcp.specs.Answers.{item_of};
ghost use Rattle.rtcp.specs.Rows.{rows_answer, rows_after};
ghost use Rattle.writer.specs.Messages.{settings_message};
ghost use Rattle.prunepocket.specs.Messages.{report_of, report_message_with_p, settings_of};
ghost use Rattle.prunepocket.specs.Messages.{write_answer, write_after, Wrote};
ghost use Rattle.prunepocket.specs.Answers.{agreed, no_refusal, at_place_zero, refusal_answer};
ghost use Rattle.prunepocket.specs.Answers.{count_answer, count_after};
ghost use Rattle.prunepocket.specs.Answers.{field_answer, field_after};

use idms::{Refusal, Report, Settings};
pub use loudspeaker::{
    LatenessAnswered, prunepocket_set_target, prunepocket_target_lateness, prunepocket_tick,
};
pub use members::{
    Followed, SettingsAnswered, prunepocket_check_settings, prunepocket_choose,
    prunepocket_count_members, prunepocket_farewell, prunepocket_member_at, prunepocket_open,
    prunepocket_report, prunepocket_report_burst, prunepocket_sweep, prunepocket_take_datagram,
};
pub use recordings::{RecordingAnswered, prunepocket_replay};
use refusals::RefusalNumber;
pub use site_file::{prunepocket_read_sync_group, prunepocket_write_sync_group};

// A refusal's number and place, or 0 and 0 where there was none. C has no Result: here, and in the other structs that it
// is given, a number stands beside the value.
#[repr(C)]
#[derive(Clone, Copy)]
pub struct Answer {
    pub number: u64,
    pub place: u64,
}

// No refusal.
pub(crate) fn accept() -> Answer
    ensures { result ≡ no_refusal }
{
    Answer {
        number: 0,
        place: 0,
    }
}

// A refusal as two numbers. What answers become for C is said by functions and not by `From`, whose contract, a ghost
// member, would be no plainer than an `ensures`.
fn refuse(r: Refusal) -> Answer
    ensures { result ≡ refusal_answer r }
{
    Answer {
        number: r.number.number(),
        place: r.place as u64,
    }
}

// A refusal whose place is 0.
pub(crate) fn refuse_at_zero(refused: RefusalNumber) -> Answer
    ensures { result ≡ at_place_zero refused }
{
    Answer {
        number: refused.number(),
        place: 0,
    }
}

// Whether reduced size was agreed. C says it by a number, since each of its values has a meaning; a bool from C that is
// neither 0 nor 1 would have none.
pub(crate) fn is_agreed(number: u32) -> bool
    ensures { result ≡ agreed number }
{
    number != 0
}

// Puts how many items a datagram has into `count`, which a refusal leaves as it was.
pub fn prunepocket_count_items(datagram: &[u8], reduced_size: u32, count: &mut u64) -> Answer
    ensures { (result ≡ count_answer (item_count (agreed reduced_size) datagram.now))
        × (count.new
        ≡ count_after (item_count (agreed reduced_size) datagram.now) count.old) }
{
    match rtcp::count_items(datagram, is_agreed(reduced_size)) {
        Err(r) => refuse(r),
        Ok(n) => {
            *count = n as u64;
            accept()
        }
    }
}

// Puts one field of the item at an index into `value`, which a refusal leaves as it was. A field that the item does not
// have gets 9, as an index without an item does.
pub fn prunepocket_item_field(
    datagram: &[u8],
    reduced_size: u32,
    index: u64,
    field: u64,
    value: &mut u64,
) -> Answer
    ensures { (result ≡ field_answer (item_of (agreed reduced_size) datagram.now index) field)
        × (value.new
        ≡ field_after (item_of (agreed reduced_size) datagram.now index) field value.old) }
{
    match rtcp::item_at(datagram, is_agreed(reduced_size), index as usize) {
        Err(r) => refuse(r),
        Ok(x) => match idms::field_at(x, field) {
            None => refuse_at_zero(RefusalNumber::NoSuchItem),
            Some(v) => {
                *value = v;
                accept()
            }
        },
    }
}

// Puts all items into `rows`, ten numbers each, and how many there are into `count`. A refusal leaves both as they
// were.
pub fn prunepocket_read_items(
    datagram: &[u8],
    reduced_size: u32,
    rows: &mut [u64],
    count: &mut u64,
) -> Answer
    ensures { (result ≡ count_answer (rows_answer (agreed reduced_size) datagram.now rows.old))
        × (rows.new ≡ rows_after (agreed reduced_size) datagram.now rows.old)
        × (count.new
        ≡ count_after (rows_answer (agreed reduced_size) datagram.now rows.old)
        count.old) }
{
    match rtcp::read_items(datagram, is_agreed(reduced_size), rows) {
        Err(r) => refuse(r),
        Ok(items) => {
            *count = items as u64;
            accept()
        }
    }
}

// What a writer answered, whose place is always 0.
pub(crate) fn answer_write(w: Result<usize, RefusalNumber>) -> Answer
    ensures { result ≡ write_answer w }
{
    match w {
        Ok(_) => accept(),
        Err(refused) => refuse_at_zero(refused),
    }
}

// How many bytes were written, or what stood there before.
pub(crate) fn bytes_written(w: Result<usize, RefusalNumber>, before: u64) -> u64
    ensures { result ≡ write_after w before }
{
    match w {
        Ok(n) => n as u64,
        Err(_) => before,
    }
}

// Writes a report to the front of `bytes` and puts how many bytes it took into `written`. P is 0 or 1. A refusal leaves
// both as they were.
pub fn prunepocket_write_report(
    sender: u32,
    payload_type: u32,
    p: u32,
    group: u32,
    media: u32,
    received: u64,
    rtp: u32,
    presented: u32,
    bytes: &mut [u8],
    written: &mut u64,
) -> Answer
    ensures { Wrote (report_message_with_p p (report_of sender payload_type p group media received rtp presented))
        bytes.old written.old result bytes.new written.new }
{
    // Checked here, before the number is cut to 8 bits and P to one.
    if 127 < payload_type || 1 < p {
        return refuse_at_zero(RefusalNumber::OutOfRange);
    }
    let r = Report {
        sender,
        payload_type: payload_type as u8,
        p: p == 1,
        group,
        media,
        received,
        rtp,
        presented,
    };
    let w = writer::write_report(r, bytes);
    *written = bytes_written(w, *written);
    answer_write(w)
}

// Writes settings to the front of `bytes` and puts how many bytes they took into `written`. A refusal leaves both as
// they were.
pub fn prunepocket_write_settings(
    sender: u32,
    group: u32,
    media: u32,
    received: u64,
    rtp: u32,
    presented: u64,
    bytes: &mut [u8],
    written: &mut u64,
) -> Answer
    ensures { Wrote (settings_message (settings_of sender group media received rtp presented))
        bytes.old written.old result bytes.new written.new }
{
    let s = Settings {
        sender,
        media,
        group,
        received,
        rtp,
        presented,
    };
    let w = writer::write_settings(s, bytes);
    *written = bytes_written(w, *written);
    answer_write(w)
}
