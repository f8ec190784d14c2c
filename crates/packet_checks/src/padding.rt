// A packet's padding: check 3.
ghost use Rattle.std.specs.Prelude.{◌≡◌};
ghost use Rattle.packet_checks.specs.Header.{padding_is_misplaced, padding_count_is_bad};

// Check 3, where P is set: whether the packet from p to `end` is the first or not the last of a datagram.
pub fn is_misplaced(p: usize, end: usize, length: usize) -> bool
    ensures { result ≡ padding_is_misplaced p end length }
{
    p == 0 || end != length
}

// Check 3: a count of padding bytes is a non-zero multiple of 4 that leaves the packet its first word. 4 is added to
// the count and not taken from the bytes, which may be fewer.
pub fn is_bad_count(count: u8, bytes: usize) -> bool
    ensures { result ≡ padding_count_is_bad count bytes }
{
    count == 0 || count % 4 != 0 || bytes < count as usize + 4
}
