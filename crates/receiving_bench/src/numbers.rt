// What the text's words stand for. Each function reads one off the front of a text, and gives what is behind it.
use origin::Origin;

// The bytes of an IPv4-mapped address in front of those of the IPv4 address.
const MAPPED: [u8; 12] = [0, 0, 0, 0, 0, 0, 0, 0, 0, 0, 255, 255];

// The digit that a character is, of a base up to 16; a letter is upper-case.
fn digit(c: u8, base: u32) -> Option<u32> {
    let digit = match c {
        b'0'..=b'9' => u32::from(c.wrapping_sub(b'0')),
        b'A'..=b'F' => u32::from(c.wrapping_sub(b'A')).wrapping_add(10),
        _ => return None,
    };
    (digit < base).then_some(digit)
}

// A number of 32 bits in at most so many digits, in one pass: the words of a datagram are read so at each of its steps.
pub(crate) fn digits(text: &[u8], base: u32, most: usize) -> Option<(u32, &[u8])> {
    let mut value: u32 = 0;
    let mut rest = text;
    for _ in 0..most {
        let Some((c, behind)) = rest.split_first() else {
            break;
        };
        let Some(digit) = digit(*c, base) else {
            break;
        };
        value = value.checked_mul(base)?.checked_add(digit)?;
        rest = behind;
    }
    (rest.len() < text.len()).then_some((value, rest))
}

// A number of 32 bits, decimal or hex behind 0x.
pub(crate) fn number(text: &[u8]) -> Option<(u32, &[u8])> {
    match text.strip_prefix(b"0x") {
        Some(hex) => digits(hex, 16, 8),
        None => digits(text, 10, 10),
    }
}

// A full time: seconds, or seconds and units of 2^-32 s.
pub(crate) fn time(text: &[u8]) -> Option<(u64, &[u8])> {
    let (seconds, rest) = number(text)?;
    let high = u64::from(seconds) << 32;
    let Some(rest) = rest.strip_prefix(b"+") else {
        return Some((high, rest));
    };
    let (units, rest) = number(rest)?;
    Some((high | u64::from(units), rest))
}

// A report's presented field, whose P stands above its 32 bits, or - for P 0.
pub(crate) fn field(text: &[u8]) -> Option<(u64, &[u8])> {
    if let Some(rest) = text.strip_prefix(b"-") {
        return Some((0, rest));
    }
    let (field, rest) = number(text)?;
    Some((1 << 32 | u64::from(field), rest))
}

// A target's presented time, or - for arrival mode.
pub(crate) fn presented(text: &[u8]) -> Option<(u64, &[u8])> {
    match text.strip_prefix(b"-") {
        Some(rest) => Some((0, rest)),
        None => time(text),
    }
}

// One of the four numbers of an address.
fn octet(text: &[u8]) -> Option<(u8, &[u8])> {
    let (value, rest) = number(text)?;
    Some((u8::try_from(value).ok()?, rest))
}

// An IPv4-mapped address.
pub(crate) fn mapped(ipv4: [u8; 4]) -> [u8; 16] {
    let mut address = [0; 16];
    address[..12].copy_from_slice(&MAPPED);
    address[12..].copy_from_slice(&ipv4);
    address
}

fn dotted_address(text: &[u8]) -> Option<([u8; 16], &[u8])> {
    let (a, rest) = octet(text)?;
    let (b, rest) = octet(rest.strip_prefix(b".")?)?;
    let (c, rest) = octet(rest.strip_prefix(b".")?)?;
    let (d, rest) = octet(rest.strip_prefix(b".")?)?;
    Some((mapped([a, b, c, d]), rest))
}

// An address of sixteen bytes in hex.
fn hex_address(text: &[u8]) -> Option<([u8; 16], &[u8])> {
    let (hex, rest) = text.split_at_checked(32)?;
    let mut address = [0; 16];
    for (byte, pair) in address.iter_mut().zip(hex.chunks(2)) {
        let (value, []) = digits(pair, 16, 2)? else {
            return None;
        };
        *byte = u8::try_from(value).ok()?;
    }
    Some((address, rest))
}

// An address and a port, behind a colon. A colon 32 bytes on tells an address in hex, also in the line behind, where
// none ends.
pub(crate) fn origin<'a>(text: &'a [u8], line_behind: &[u8]) -> Option<(Origin, &'a [u8])> {
    let colon = if text.len() < 32 {
        line_behind.get(31 - text.len())
    } else {
        text.get(32)
    };
    let (address, rest) = match colon {
        Some(b':') => hex_address(text)?,
        _ => dotted_address(text)?,
    };
    let (port, rest) = number(rest.strip_prefix(b":")?)?;
    let port = u16::try_from(port).ok()?;
    Some((Origin { address, port }, rest))
}
