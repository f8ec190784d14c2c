// Writes the two IDMS messages (RFC 7272) to the front of a lent buffer.
#![tactic(auto)]

ghost use Rattle.std.specs.Prelude.{◌≡◌, ◌*◌, ◌≤◌, ◌<◌, ◌++◌, length, drop};
ghost use Rattle.buffer.specs.Buffer.{WroteMessage};
ghost use Rattle.writer.specs.Messages.{bytes_of, report_words, settings_words};
ghost use Rattle.writer.specs.Messages.{report_is_unwritable, report_message, settings_message};

use idms::{Report, Settings};
use refusals::RefusalNumber;

// Puts words one behind the other at the front. By index: no proof knows the bytes that `chunks_exact_mut` leaves.
fn put_words(buf: &mut [u8], words: &[u32])
    requires { 4 * length words.now ≤ length buf.old }
    ensures { buf.new ≡ bytes_of words.now ++ drop (4 * length words.now) buf.old }
{
    for (i, word) in words.iter().enumerate() {
        buf[4 * i..4 * i + 4].copy_from_slice(&word.to_be_bytes());
    }
}

// The words of an XR packet with one report block.
fn words_of_report(r: Report) -> [u32; 10]
    requires { r.payload_type < 128 }
    ensures { result ≡ report_words r }
{
    [
        0x80CF0009,
        r.sender,
        0x0C100007 + u32::from(r.p) * 65536,
        u32::from(r.payload_type) * 33554432,
        r.group,
        r.media,
        (r.received / 4294967296) as u32,
        (r.received % 4294967296) as u32,
        r.rtp,
        r.presented,
    ]
}

// The words of a settings packet. The media source precedes the group here.
fn words_of_settings(s: Settings) -> [u32; 9]
    ensures { result ≡ settings_words s }
{
    [
        0x80D30008,
        s.sender,
        s.media,
        s.group,
        (s.received / 4294967296) as u32,
        (s.received % 4294967296) as u32,
        s.rtp,
        (s.presented / 4294967296) as u32,
        (s.presented % 4294967296) as u32,
    ]
}

// Refusal 11 for a report.
#[tactic(auto, unfolding(crate::specs::Messages::report_is_unwritable))]
fn is_unwritable(r: Report) -> bool
    ensures { result ≡ report_is_unwritable r }
{
    127 < r.payload_type || r.group == 4294967295 || (!r.p && r.presented != 0)
}

// Writes an XR packet of 40 bytes with one report block, or refuses with 11, then 10, and writes nothing.
pub fn write_report(r: Report, buf: &mut [u8]) -> Result<usize, RefusalNumber>
    ensures { WroteMessage (report_message r) buf.old result buf.new }
{
    if is_unwritable(r) {
        return Err(RefusalNumber::OutOfRange);
    }
    if buf.len() < 40 {
        return Err(RefusalNumber::ShortBuffer);
    }
    put_words(buf, &words_of_report(r));
    Ok(40)
}

// Writes a settings packet of 36 bytes, or refuses with 11, then 10, and writes nothing.
pub fn write_settings(s: Settings, buf: &mut [u8]) -> Result<usize, RefusalNumber>
    ensures { WroteMessage (settings_message s) buf.old result buf.new }
{
    if s.group == 4294967295 {
        return Err(RefusalNumber::OutOfRange);
    }
    if buf.len() < 36 {
        return Err(RefusalNumber::ShortBuffer);
    }
    put_words(buf, &words_of_settings(s));
    Ok(36)
}
