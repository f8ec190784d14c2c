// The exports for C and Rust, under the names of include/prunepocket.h. Each calls the function of its name in the
// library `prunepocket` and promises the same: they are twins of those, since C needs a function for each name.
#![tactic(auto)]

mod loudspeaker;
mod members;
mod recordings;
mod site_file;

ghost use Rattle.std.specs.Prelude.{◌≡◌};
ghost use Rattle.datagram.specs.Answers.{item_count};
ghost use Rattle.rtcp.specs.Answers.{item_of};
ghost use Rattle.rtcp.specs.Rows.{rows_answer, rows_after};
ghost use Rattle.writer.specs.Messages.{settings_message};
ghost use Rattle.prunepocket.specs.Messages.{report_of, report_message_with_p, settings_of};
ghost use Rattle.prunepocket.specs.Messages.{Wrote};
ghost use Rattle.prunepocket.specs.Answers.{agreed, count_answer, count_after};
ghost use Rattle.prunepocket.specs.Answers.{field_answer, field_after};

use prunepocket::Answer;

// Puts how many items a datagram has into `count`, which a refusal leaves as it was.
#[unsafe(no_mangle)]
pub extern "C" fn prunepocket_count_items(
    datagram: &[u8],
    reduced_size: u32,
    count: &mut u64,
) -> Answer
    ensures { (result ≡ count_answer (item_count (agreed reduced_size) datagram.now))
        × (count.new
        ≡ count_after (item_count (agreed reduced_size) datagram.now) count.old) }
{
    prunepocket::prunepocket_count_items(datagram, reduced_size, count)
}

// Puts one field of the item at an index into `value`, which a refusal leaves as it was. A field that the item does not
// have gets 9, as an index without an item does.
#[unsafe(no_mangle)]
pub extern "C" fn prunepocket_item_field(
    datagram: &[u8],
    reduced_size: u32,
    index: u64,
    field: u64,
    value: &mut u64,
) -> Answer
    ensures { (result ≡ field_answer (item_of (agreed reduced_size) datagram.now index) field)
        × (value.new
        ≡ field_after (item_of (agreed reduced_size) datagram.now index) field value.old) }
{
    prunepocket::prunepocket_item_field(datagram, reduced_size, index, field, value)
}

// Puts all items into `rows`, ten numbers each, and how many there are into `count`. A refusal leaves both as they
// were.
#[unsafe(no_mangle)]
pub extern "C" fn prunepocket_read_items(
    datagram: &[u8],
    reduced_size: u32,
    rows: &mut [u64],
    count: &mut u64,
) -> Answer
    ensures { (result ≡ count_answer (rows_answer (agreed reduced_size) datagram.now rows.old))
        × (rows.new ≡ rows_after (agreed reduced_size) datagram.now rows.old)
        × (count.new
        ≡ count_after (rows_answer (agreed reduced_size) datagram.now rows.old)
        count.old) }
{
    prunepocket::prunepocket_read_items(datagram, reduced_size, rows, count)
}

// Writes a report to the front of `bytes` and puts how many bytes it took into `written`. P is 0 or 1. A refusal leaves
// both as they were.
#[unsafe(no_mangle)]
pub extern "C" fn prunepocket_write_report(
    sender: u32,
    payload_type: u32,
    p: u32,
    group: u32,
    media: u32,
    received: u64,
    rtp: u32,
    presented: u32,
    bytes: &mut [u8],
    written: &mut u64,
) -> Answer
    ensures { Wrote (report_message_with_p p (report_of sender payload_type p group media received rtp presented))
        bytes.old written.old result bytes.new written.new }
{
    prunepocket::prunepocket_write_report(
        sender,
        payload_type,
        p,
        group,
        media,
        received,
        rtp,
        presented,
        bytes,
        written,
    )
}

// Writes settings to the front of `bytes` and puts how many bytes they took into `written`. A refusal leaves both as
// they were.
#[unsafe(no_mangle)]
pub extern "C" fn prunepocket_write_settings(
    sender: u32,
    group: u32,
    media: u32,
    received: u64,
    rtp: u32,
    presented: u64,
    bytes: &mut [u8],
    written: &mut u64,
) -> Answer
    ensures { Wrote (settings_message (settings_of sender group media received rtp presented))
        bytes.old written.old result bytes.new written.new }
{
    prunepocket::prunepocket_write_settings(
        sender, group, media, received, rtp, presented, bytes, written,
    )
}
