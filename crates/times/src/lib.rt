// Times that wrap: presentation, ages, and the checks on them. Every function takes any numbers.
#![tactic(auto)]

ghost use Rattle.std.specs.Prelude.{◌≡◌, ◌+◌, ◌^◌, ◌≤◌};
ghost use Rattle.times.specs.Times.{unwrapped, expanded, delay, ntp_age, rtp_age};
ghost use Rattle.times.specs.Times.{settings_delay, is_far, is_aged, is_badly_presented, is_fresh};
ghost use Rattle.times.specs.Times.{settings_are_badly_presented};

// In units of 2^-32 s: the longest NTP age (15) and the longest presentation delay (17).
pub const THIRTY_SECONDS: u64 = 128849018880;

// A slot of 2^-16 s in units of 2^-32 s, and how many slots a short presented time counts before it wraps.
const SLOT: u64 = 65536;

const SHORT_TIMES: u64 = 4294967296;

// How many units of 2^-32 s a full time counts before it wraps.
const FULL_TIMES: u128 = 18446744073709551616;

// How long before the sender's reading N the packet was received.
#[tactic(auto, unfolding(crate::specs::Times::difference_mod))]
pub fn ntp_age(n: u64, received: u64) -> u64
    ensures { result ≡ ntp_age n received }
{
    n.wrapping_sub(received)
}

// How far before the sender's reading R the RTP time lies, in units of the media clock.
#[tactic(auto, unfolding(crate::specs::Times::difference_mod))]
pub fn rtp_age(r: u32, rtp: u32) -> u32
    ensures { result ≡ rtp_age r rtp }
{
    r.wrapping_sub(rtp)
}

// The presentation before wrapping, which can have 65 bits: one unit after received where presented is received's own
// slot of 2^-16 s, else the start of the presented slot. M lies before presented as an RTP time lies before a reading.
fn unwrapped_presentation(received: u64, presented: u32) -> u128
    ensures { result ≡ unwrapped received presented }
{
    let step = rtp_age(presented, (received / SLOT % SHORT_TIMES) as u32);
    if step == 0 {
        (received as u128) + 1
    } else {
        ((received / SLOT * SLOT) as u128) + (step as u128) * (SLOT as u128)
    }
}

// How long after its arrival a sample is presented, in units of 2^-32 s.
pub fn presentation_delay(received: u64, presented: u32) -> u64
    ensures { result ≡ delay received presented }
{
    (unwrapped_presentation(received, presented) - (received as u128)) as u64
}

// The short presented time as a full time.
#[tactic(auto, unfolding(crate::specs::Times::expanded))]
pub fn presentation(received: u64, presented: u32) -> u64
    ensures { result ≡ expanded received presented }
{
    (unwrapped_presentation(received, presented) % FULL_TIMES) as u64
}

// How long after its received time a settings packet has its sample presented. It holds both times whole.
pub fn settings_delay(received: u64, presented: u64) -> u64
    ensures { result ≡ settings_delay received presented }
{
    ntp_age(presented, received)
}

// Check 15.
pub fn is_far(n: u64, received: u64) -> bool
    ensures { result ≡ is_far n received }
{
    THIRTY_SECONDS < ntp_age(n, received)
}

// Check 16, for any rate.
pub fn is_aged(rate: u32, r: u32, rtp: u32) -> bool
    ensures { result ≡ is_aged rate r rtp }
{
    60 * u64::from(rate) < u64::from(rtp_age(r, rtp))
}

// Check 17, of a report with P 1.
pub fn is_badly_presented(received: u64, presented: u32) -> bool
    ensures { result ≡ is_badly_presented received presented }
{
    THIRTY_SECONDS < presentation_delay(received, presented)
        || presentation(received, presented) == 0
}

// Check 17, of a check of settings.
pub fn settings_are_badly_presented(received: u64, presented: u64) -> bool
    ensures { result ≡ settings_are_badly_presented received presented }
{
    let delay = settings_delay(received, presented);
    THIRTY_SECONDS < delay || presented == 0 || delay == 0
}

// Whether neither 15 nor 16 would be given.
pub fn is_fresh(rate: u32, n: u64, r: u32, received: u64, rtp: u32) -> bool
    ensures { result ≡ is_fresh rate n r received rtp }
{
    !is_far(n, received) && !is_aged(rate, r, rtp)
}
