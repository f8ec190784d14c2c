// Big-endian fields of a datagram.
ghost use Rattle.std.specs.Prelude.{◌≡◌, ◌+◌, ◌-◌, ◌*◌, ◌≤◌, ◌<◌, ◌^◌, length};
ghost use Rattle.packet.specs.Bytes.{from_bytes, be16, be32, be64};
ghost use Rattle.packet.specs.Answers.{source_is};

// The 16 bits at a place. The readers are not public, since a public function has no `requires` here, and a test of the
// place would be made for each field.
#[tactic(auto, unfolding(crate::specs::Bytes::be16))]
pub(crate) fn read16(d: &[u8], at: usize) -> u16
    requires { at + 2 ≤ length d.now }
    ensures { result ≡ be16 d.now at }
{
    u16::from_be_bytes([d[at], d[at + 1]])
}

// The 32 bits at a place.
#[tactic(auto, unfolding(crate::specs::Bytes::be32))]
pub(crate) fn read32(d: &[u8], at: usize) -> u32
    requires { at + 4 ≤ length d.now }
    ensures { result ≡ be32 d.now at }
{
    u32::from_be_bytes([d[at], d[at + 1], d[at + 2], d[at + 3]])
}

// The 64 bits at a place.
#[tactic(auto, unfolding(crate::specs::Bytes::be64, crate::specs::Bytes::be32))]
pub(crate) fn read64(d: &[u8], at: usize) -> u64
    requires { at + 8 ≤ length d.now }
    ensures { result ≡ be64 d.now at }
{
    u64::from_be_bytes([
        d[at],
        d[at + 1],
        d[at + 2],
        d[at + 3],
        d[at + 4],
        d[at + 5],
        d[at + 6],
        d[at + 7],
    ])
}

// The source at a place, of those that end at `stop`, where there is one to read.
#[tactic(auto, unfolding(crate::specs::Answers::source_is))]
pub fn source_at(d: &[u8], at: usize, stop: usize) -> Option<u32>
    ensures { result ≡ source_is d.now stop at }
{
    if d.len() < stop || stop.saturating_sub(at) < 4 {
        return None;
    }
    Some(read32(d, at))
}
