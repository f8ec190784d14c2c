// The bytes of a recording: whether its layout is good, and its entries.
ghost use Rattle.std.specs.Prelude.{◌≡◌, ◌+◌, ◌*◌, ◌≤◌, length, take, drop};
ghost use Rattle.packet.specs.Bytes.{be16, be32, be64};
ghost use Rattle.replay.specs.Recording.{entry_size, entry_place, entry_limit, bodies_end};
ghost use Rattle.replay.specs.Recording.{recording_limit, is_bad_layout};
ghost use Rattle.replay.specs.Steps.{listed_at};

use origin::Origin;
use register::Reading;

const HEAD_SIZE: usize = 16;

const ENTRY_SIZE: usize = 32;

// The most bytes of a recording.
pub const RECORDING_LIMIT: usize = 65536;

// The most entries of a recording.
pub const ENTRY_LIMIT: usize = 256;

// An entry: the sender's reading, the origin, and where the body starts and ends.
#[derive(Clone, Copy)]
pub(crate) struct Listed {
    pub(crate) at: Reading,
    pub(crate) origin: Origin,
    pub(crate) body: usize,
    pub(crate) end: usize,
}

// The 16 bits at a place. The readers are as those of packet, which are not public, since a public function has no
// `requires` here.
#[tactic(auto, unfolding(packet::specs::Bytes::be16))]
fn read16(f: &[u8], at: usize) -> u16
    requires { at + 2 ≤ length f.now }
    ensures { result ≡ be16 f.now at }
{
    u16::from_be_bytes([f[at], f[at + 1]])
}

// The 32 bits at a place.
#[tactic(auto, unfolding(packet::specs::Bytes::be32))]
pub(crate) fn read32(f: &[u8], at: usize) -> u32
    requires { at + 4 ≤ length f.now }
    ensures { result ≡ be32 f.now at }
{
    u32::from_be_bytes([f[at], f[at + 1], f[at + 2], f[at + 3]])
}

// The 64 bits at a place.
#[tactic(auto, unfolding(packet::specs::Bytes::be64, packet::specs::Bytes::be32))]
fn read64(f: &[u8], at: usize) -> u64
    requires { at + 8 ≤ length f.now }
    ensures { result ≡ be64 f.now at }
{
    u64::from_be_bytes([
        f[at],
        f[at + 1],
        f[at + 2],
        f[at + 3],
        f[at + 4],
        f[at + 5],
        f[at + 6],
        f[at + 7],
    ])
}

// The address at a place.
fn address_at(f: &[u8], at: usize) -> [u8; 16]
    requires { at + 16 ≤ length f.now }
    ensures { result ≡ take 16 (drop at f.now) }
{
    let mut address = [0u8; 16];
    address.copy_from_slice(&f[at..at + 16]);
    address
}

// Where entry n starts; with the entry count for n, where the bodies start.
pub(crate) fn entry_place(n: usize) -> usize
    requires { n ≤ entry_limit }
    ensures { result ≡ entry_place n }
{
    HEAD_SIZE + ENTRY_SIZE * n
}

// The entry at a place, whose body starts at `body`.
pub(crate) fn entry_at(f: &[u8], p: usize, body: usize) -> Listed
    requires { (p + entry_size ≤ length f.now) × (body ≤ length f.now) × (length f.now ≤ recording_limit) }
    ensures { result ≡ listed_at f.now p body }
{
    Listed {
        at: Reading {
            ntp: read64(f, p),
            rtp: read32(f, p + 8),
        },
        origin: Origin {
            address: address_at(f, p + 12),
            port: read16(f, p + 28),
        },
        body,
        end: body + usize::from(read16(f, p + 30)),
    }
}

// Where the last of n bodies ends.
fn bodies_end(f: &[u8], n: usize) -> usize
    requires { (n ≤ entry_limit) × (entry_place n ≤ length f.now) }
    ensures { result ≡ bodies_end f.now n (entry_place 0) (entry_place n) }
{
    let mut end = entry_place(n);
    for i in 0..n {
        end += usize::from(read16(f, entry_place(i) + 30));
    }
    end
}

// Whether 25 applies.
#[tactic(auto, unfolding(crate::specs::Recording::is_bad_layout))]
pub(crate) fn is_bad_layout(f: &[u8]) -> bool
    ensures { result ≡ is_bad_layout f.now }
{
    if RECORDING_LIMIT < f.len() || f.len() < HEAD_SIZE {
        return true;
    }
    let n = read32(f, 0) as usize;
    if ENTRY_LIMIT < n || f.len() < entry_place(n) {
        return true;
    }
    bodies_end(f, n) != f.len()
}
