// What the papers say of a target beyond its fields: lateness and delay.
use register::{Reading, Target};
use times::{ntp_age, rtp_age};

// Stands for the target where choosing is refused.
pub(crate) const NO_TARGET: Target = Target {
    source: 0,
    group: 0,
    media: 0,
    received: 0,
    rtp: 0,
    presented: 0,
    counted: 0,
};

// The most that a fresh report's age and delay are: 30 s.
const MOST_AGE: u64 = 30 << 32;

// The most that its RTP age is, in media clock.
const MOST_TICKS: u32 = 5400000;

// Presented minus received, or 0 in arrival mode.
pub(crate) fn delay_of(x: Target) -> u64 {
    if x.presented == 0 {
        return 0;
    }
    ntp_age(x.presented, x.received)
}

// Lateness of a target's three times at a rate of 90,000, where it is not below 0. Those of a fresh report are within
// the bounds.
pub(crate) fn lateness(x: Target, at: Reading) -> u64 {
    let delay = delay_of(x).min(MOST_AGE);
    let age = ntp_age(at.ntp, x.received).min(MOST_AGE);
    let ticks = u64::from(rtp_age(at.rtp, x.rtp).min(MOST_TICKS));
    (90000 * delay + ticks * 4294967296).wrapping_sub(90000 * age)
}
