// Packet types, each with its own least content: checks 4 and 5.
ghost use Rattle.std.specs.Prelude.{◌≡◌};
ghost use Rattle.packet_checks.specs.Header.{kind_of, opens, first_is_bad, content_is_short};

// A packet type that is looked into, with its least content, which for settings is exact; or another one, which is
// stepped over unread.
#[derive(Clone, Copy)]
pub enum PacketType {
    Sr(usize),
    Rr(usize),
    Bye(usize),
    Xr(usize),
    Settings(usize),
    Other,
}

// The type that a number stands for in a packet with a count.
#[tactic(auto, unfolding(crate::specs::Header::kind_of))]
pub fn kind_of(number: u8, count: u8) -> PacketType
    ensures { result ≡ kind_of number count }
{
    let n = count as usize;
    match number {
        200 => PacketType::Sr(28 + 24 * n),
        201 => PacketType::Rr(8 + 24 * n),
        203 => PacketType::Bye(4 + 4 * n),
        207 => PacketType::Xr(8),
        211 => PacketType::Settings(36),
        0..=199 | 202 | 204..=206 | 208..=210 | 212..=255 => PacketType::Other,
    }
}

// An SR or an RR, with which a compound starts.
fn is_opening(kind: PacketType) -> bool
    ensures { result ≡ opens kind }
{
    matches!(kind, PacketType::Sr(_) | PacketType::Rr(_))
}

// Check 4: the first packet is an SR or an RR, unless reduced size was agreed.
#[tactic(auto, unfolding(crate::specs::Header::first_is_bad))]
pub fn is_bad_first(reduced: bool, p: usize, number: u8, count: u8) -> bool
    ensures { result ≡ first_is_bad reduced p (kind_of number count) }
{
    p == 0 && !is_opening(kind_of(number, count)) && !reduced
}

// Check 5: whether the content is too short for the type, or for settings of another length.
pub fn is_short(kind: PacketType, bytes: usize) -> bool
    ensures { result ≡ content_is_short kind bytes }
{
    match kind {
        PacketType::Sr(least) => bytes < least,
        PacketType::Rr(least) => bytes < least,
        PacketType::Bye(least) => bytes < least,
        PacketType::Xr(least) => bytes < least,
        PacketType::Settings(exact) => bytes != exact,
        PacketType::Other => false,
    }
}
