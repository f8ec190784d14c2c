// The line of a site file that carries a group number: `a=rtcp-idms:sync-group=42` CR LF (RFC 7272, section 10).
#![tactic(auto)]

ghost use Rattle.std.specs.Prelude.{◌≡◌, ◌≤◌, true, false, ◌++◌, length, drop, MatchOption};
ghost use Rattle.buffer.specs.Buffer.{WroteMessage};
ghost use Rattle.sdp.specs.Digits.{are_digits, value_of, digits_of, without_leading_zeros};
ghost use Rattle.sdp.specs.Line.{most_digits, sdp_line, digits_in, group_message};
ghost use Rattle.sdp.specs.Answers.{keeps_grammar, group_in};

use refusals::RefusalNumber;

// What stands before the digits.
const PREFIX: [u8; 23] = *b"a=rtcp-idms:sync-group=";

// What stands behind them.
const CRLF: [u8; 2] = *b"\r\n";

const MOST_DIGITS: usize = 10;

// The number above it is reserved.
const GREATEST_GROUP: u64 = 4294967294;

// The digits of a line that keeps the grammar, however many there are.
fn digits_in(line: &[u8]) -> Option<&[u8]>
    ensures { MatchOption result (keeps_grammar line.now ≡ false)
        (λ digits. (keeps_grammar line.now ≡ true) × (digits.now ≡ digits_in line.now)) }
{
    let digits = line.strip_prefix(&PREFIX)?.strip_suffix(&CRLF)?;
    if digits.is_empty() || !digits.iter().all(|b| b.is_ascii_digit()) {
        return None;
    }
    Some(digits)
}

// The number that at most ten digits spell.
fn value_of(digits: &[u8]) -> u64
    requires { (length digits.now ≤ most_digits) × (are_digits digits.now ≡ true) }
    ensures { result ≡ value_of digits.now }
{
    let mut n: u64 = 0;
    for digit in digits {
        n = n * 10 + u64::from(*digit - b'0');
    }
    n
}

// Reads the group number of a line, which is the whole slice, or refuses with 21, then 22.
pub fn read_sync_group(line: &[u8]) -> Result<u32, RefusalNumber>
    ensures { result ≡ group_in line.now }
{
    let digits = digits_in(line).ok_or(RefusalNumber::BadLine)?;
    if MOST_DIGITS < digits.len() {
        return Err(RefusalNumber::BadGroup);
    }
    let group = value_of(digits);
    if GREATEST_GROUP < group {
        return Err(RefusalNumber::BadGroup);
    }
    Ok(group as u32)
}

// A number in ten digits.
fn ten_digits(n: u32) -> [u8; MOST_DIGITS]
    ensures { result ≡ digits_of most_digits n }
{
    let mut digits = [b'0'; MOST_DIGITS];
    let mut rest = n;
    for i in (0..MOST_DIGITS).rev() {
        digits[i] = b'0' + (rest % 10) as u8;
        rest /= 10;
    }
    digits
}

// The digits from the first on that is no zero; the last is kept, whatever it is.
fn without_leading_zeros(digits: &[u8; MOST_DIGITS]) -> &[u8]
    ensures { result.now ≡ without_leading_zeros digits.now }
{
    let zeros = digits.iter().take_while(|b| **b == b'0').count();
    &digits[zeros.min(MOST_DIGITS - 1)..]
}

// Puts the line with these digits at the front.
fn put_line(buf: &mut [u8], digits: &[u8])
    requires { length (sdp_line digits.now) ≤ length buf.old }
    ensures { buf.new ≡ sdp_line digits.now
        ++ drop (length (sdp_line digits.now)) buf.old }
{
    let end = PREFIX.len() + digits.len();
    buf[..PREFIX.len()].copy_from_slice(&PREFIX);
    buf[PREFIX.len()..end].copy_from_slice(digits);
    buf[end..end + CRLF.len()].copy_from_slice(&CRLF);
}

// Writes the line of a group number without leading zeros, or refuses with 22, then 10, and writes nothing.
pub fn write_sync_group(group: u32, buf: &mut [u8]) -> Result<usize, RefusalNumber>
    ensures { WroteMessage (group_message group) buf.old result buf.new }
{
    if GREATEST_GROUP < u64::from(group) {
        return Err(RefusalNumber::BadGroup);
    }
    let digits = ten_digits(group);
    let digits = without_leading_zeros(&digits);
    let length = PREFIX.len() + digits.len() + CRLF.len();
    if buf.len() < length {
        return Err(RefusalNumber::ShortBuffer);
    }
    put_line(buf, digits);
    Ok(length)
}
