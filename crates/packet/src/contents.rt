// What a packet holds, by its type.
ghost use Rattle.std.specs.Prelude.{◌≡◌, true};
ghost use Rattle.packet.specs.Contents.{contents, readable};
ghost use Rattle.packet.specs.Answers.{head_of, packet_is};

use crate::bytes::read32;
use crate::header::{Head, known_head, packet_size};
use packet_checks::{PacketType, is_short};

// What a packet holds. Each form ends with the place of the packet behind.
#[derive(Clone, Copy)]
pub enum Packet {
    // Nothing that is read.
    Unread(usize),
    // Sources, from a place up to a stop.
    Sources(usize, usize, usize),
    // The XR sender's SSRC and blocks, from a place up to a stop.
    Blocks(u32, usize, usize, usize),
    // Settings, which `settings_at` reads.
    Settings(usize),
}

// Takes the packet at p, which is readable, apart by its type.
#[tactic(auto, using(crate::proofs::Laws::Contents::parts_inside))]
fn contents_at(d: &[u8], p: usize, h: Head) -> Packet
    requires { (h ≡ head_of d.now p) × (readable d.now p ≡ true) }
    ensures { result ≡ contents d.now p }
{
    let kind = h.kind;
    let next = p + h.bytes;
    match kind {
        PacketType::Sr(_) | PacketType::Rr(_) | PacketType::Other => Packet::Unread(next),
        PacketType::Bye(least) => Packet::Sources(p + 4, p + least, next),
        PacketType::Xr(_) => Packet::Blocks(read32(d, p + 4), p + 8, p + h.content, next),
        PacketType::Settings(_) => Packet::Settings(next),
    }
}

// What the packet at p holds, where it lies in the datagram and has its least content. Of its checks only those are
// made that reading needs.
#[tactic(auto, unfolding(crate::specs::Answers::packet_is, crate::specs::Contents::readable))]
pub fn packet_at(d: &[u8], p: usize) -> Option<Packet>
    ensures { result ≡ packet_is d.now p }
{
    if d.len().saturating_sub(p) < 4 {
        return None;
    }
    let bytes = packet_size(d, p);
    if d.len() < p + bytes {
        return None;
    }
    let h = known_head(d, p, bytes);
    let kind = h.kind;
    if is_short(kind, h.content) {
        return None;
    }
    Some(contents_at(d, p, h))
}
