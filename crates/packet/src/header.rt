// A packet's header: checks 2, 3, 4 and 5.
ghost use Rattle.std.specs.Prelude.{◌≡◌, ◌+◌, ◌/◌, ◌%◌, ◌≤◌, length, eqb};
ghost use Rattle.packet.specs.Packet.{size, padding_is_bad, content};
ghost use Rattle.packet.specs.Answers.{head_of, head_is};

use crate::bytes::read16;
use packet_checks::{PacketType, is_bad_count, is_bad_first, is_misplaced, is_short, kind_of};
use refusals::RefusalNumber;

// What later steps use of a header. `content` counts the header and not the padding.
#[derive(Clone, Copy)]
pub struct Head {
    pub kind: PacketType,
    pub count: usize,
    pub bytes: usize,
    pub content: usize,
}

// The bytes of the packet at p.
pub(crate) fn packet_size(d: &[u8], p: usize) -> usize
    requires { p + 4 ≤ length d.now }
    ensures { (result ≡ size d.now p) × (result ≤ 262144) }
{
    4 * (usize::from(read16(d, p + 2)) + 1)
}

// Whether P is set.
fn is_padded(first: u8) -> bool
    ensures { result ≡ eqb (first / 32 % 2) 1 }
{
    first / 32 % 2 == 1
}

// Check 3 for the packet at p.
#[tactic(auto, unfolding(crate::specs::Packet::padding_is_bad))]
fn is_badly_padded(d: &[u8], p: usize, bytes: usize) -> bool
    requires { (bytes ≡ size d.now p) × (p + bytes ≤ length d.now) }
    ensures { result ≡ padding_is_bad d.now p }
{
    is_padded(d[p])
        && (is_misplaced(p, p + bytes, d.len()) || is_bad_count(d[p + bytes - 1], bytes))
}

// The packet's bytes without its padding.
#[tactic(auto, unfolding(crate::specs::Packet::content))]
fn unpadded(d: &[u8], p: usize, bytes: usize) -> usize
    requires { (bytes ≡ size d.now p) × (p + bytes ≤ length d.now) }
    ensures { result ≡ content d.now p }
{
    if is_padded(d[p]) {
        return bytes.saturating_sub(usize::from(d[p + bytes - 1]));
    }
    bytes
}

// The header of the packet at p, which lies in the datagram.
pub(crate) fn known_head(d: &[u8], p: usize, bytes: usize) -> Head
    requires { (bytes ≡ size d.now p) × (p + bytes ≤ length d.now) }
    ensures { result ≡ head_of d.now p }
{
    let count = d[p] % 32;
    // Before the type is told apart, so that what a caller does by type follows at once.
    let content = unpadded(d, p, bytes);
    Head {
        kind: kind_of(d[p + 1], count),
        count: usize::from(count),
        bytes,
        content,
    }
}

// The header of the packet at p, once checks 2, 3, 4 and 5 have passed, of which 4 is made unless reduced size was
// agreed.
#[tactic(auto, unfolding(crate::specs::Answers::head_is, crate::specs::Packet::head_check))]
pub fn head_at(d: &[u8], reduced: bool, p: usize) -> Result<Head, RefusalNumber>
    ensures { result ≡ head_is reduced d.now p }
{
    if d.len().saturating_sub(p) < 4 || d[p] / 64 != 2 {
        return Err(RefusalNumber::BadPacket);
    }
    let bytes = packet_size(d, p);
    if d.len() < p + bytes {
        return Err(RefusalNumber::BadPacket);
    }
    let padding = is_badly_padded(d, p, bytes);
    let first = is_bad_first(reduced, p, d[p + 1], d[p] % 32);
    if padding {
        return Err(RefusalNumber::BadPadding);
    }
    if first {
        return Err(RefusalNumber::BadFirst);
    }
    let h = known_head(d, p, bytes);
    let kind = h.kind;
    if is_short(kind, h.content) {
        return Err(RefusalNumber::ShortContent);
    }
    Ok(h)
}
