// A whole RTCP datagram: its packets walked from the front, each checked, and the items counted. A datagram that
// breaks a rule is refused and has no count.
#![tactic(auto)]

ghost use Rattle.std.specs.Prelude.{◌≡◌, true, ◌+◌, ◌≤◌, length};
ghost use Rattle.packet.specs.Contents.{readable};
ghost use Rattle.packet.specs.Answers.{head_of};
ghost use Rattle.datagram.specs.Datagram.{length_is_bad};
ghost use Rattle.datagram.specs.Answers.{blocks_count, parts_count, packets_count, item_count};

use idms::Refusal;
use packet::{Head, block_at, head_at};
use packet_checks::{Block, PacketType};
use refusals::RefusalNumber;

// Checks the blocks of the XR packet at p, and counts the items that they give.
fn count_blocks(d: &[u8], p: usize, content: usize) -> Result<usize, Refusal>
    requires { (8 ≤ content) × (p + content ≤ length d.now) }
    ensures { result ≡ blocks_count d.now p content }
{
    let stop = p + content;
    let mut at = p + 8;
    let mut n: usize = 0;
    while at < stop {
        match block_at(d, at, stop).map_err(|number| Refusal { number, place: at })? {
            Block::Report => {
                n += 1;
                at += 32;
            }
            Block::Skipped(bytes) => {
                at += bytes;
            }
        }
    }
    Ok(n)
}

// Counts the items of the packet at p, which is readable, by its type.
fn count_content(d: &[u8], p: usize, h: Head) -> Result<usize, Refusal>
    requires { (h ≡ head_of d.now p) × (readable d.now p ≡ true) }
    ensures { result ≡ parts_count d.now p }
{
    match h.kind {
        PacketType::Sr(_) | PacketType::Rr(_) | PacketType::Other => Ok(0),
        PacketType::Bye(_) => Ok(h.count),
        PacketType::Xr(_) => count_blocks(d, p, h.content),
        PacketType::Settings(_) => Ok(1),
    }
}

// Checks the packets of a datagram in turn, and counts their items.
fn count_packets(d: &[u8], reduced: bool) -> Result<usize, Refusal>
    ensures { result ≡ packets_count reduced d.now 0 }
{
    let mut p: usize = 0;
    let mut n: usize = 0;
    while p < d.len() {
        let h = head_at(d, reduced, p).map_err(|number| Refusal { number, place: p })?;
        n += count_content(d, p, h)?;
        p += h.bytes;
    }
    Ok(n)
}

// Check 1.
fn is_bad_length(n: usize) -> bool
    ensures { result ≡ length_is_bad n }
{
    n == 0 || n % 4 != 0 || 2048 < n
}

// How many items a datagram has, or the refusal that it gets. `reduced` says whether reduced size was agreed.
pub fn count_items(d: &[u8], reduced: bool) -> Result<usize, Refusal>
    ensures { result ≡ item_count reduced d.now }
{
    if is_bad_length(d.len()) {
        return Err(Refusal {
            number: RefusalNumber::BadLength,
            place: 0,
        });
    }
    count_packets(d, reduced)
}
