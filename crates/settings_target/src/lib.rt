// How late a settings packet asks a loudspeaker to play, at the loudspeaker's own reading (document 02, E10).
#![tactic(auto)]

ghost use Rattle.std.specs.Prelude.{◌≡◌, ◌*◌, ◌^◌, ◌≤◌};
ghost use Rattle.register.specs.Choosing.{delay_between, lateness};
ghost use Rattle.settings_target.specs.TargetLateness.{target_is_badly_presented, target_checks, lateness_asked};

use checks::is_refused_opening;
use idms::Settings;
use refusals::RefusalNumber;
use register::{Opening, Reading};
use times::{is_aged, is_far, ntp_age, rtp_age, settings_are_badly_presented, settings_delay};

// In units of 2^-32 s.
const SECOND: u64 = 1 << 32;

// Check 17, which presented 0 passes.
fn is_badly_presented_target(received: u64, presented: u64) -> bool
    ensures { result ≡ target_is_badly_presented received presented }
{
    presented != 0 && settings_are_badly_presented(received, presented)
}

// The first check that applies to a settings packet.
#[tactic(auto, unfolding(crate::specs::TargetLateness::target_checks))]
fn target_number(opening: Opening, s: Settings, at: Reading) -> Result<(), RefusalNumber>
    ensures { result ≡ target_checks opening s at }
{
    if is_refused_opening(opening) {
        return Err(RefusalNumber::BadOpening);
    }
    if s.group != opening.group || s.media != opening.media {
        return Err(RefusalNumber::OtherStream);
    }
    if is_far(at.ntp, s.received) {
        return Err(RefusalNumber::ReceivedFar);
    }
    if is_aged(opening.rate, at.rtp, s.rtp) {
        return Err(RefusalNumber::RtpAged);
    }
    if is_badly_presented_target(s.received, s.presented) {
        return Err(RefusalNumber::BadlyPresented);
    }
    Ok(())
}

// The delay of a settings packet: presented 0 stands for none.
fn delay_between(received: u64, presented: u64) -> u64
    ensures { result ≡ delay_between received presented }
{
    if presented == 0 {
        0
    } else {
        settings_delay(received, presented)
    }
}

// Lateness in one word, from numbers that passed the checks.
fn lateness_by(rate: u32, delay: u64, age: u64, ticks: u32) -> i64
    requires { (rate ≤ 192000) × (delay ≤ 30 * 2 ^ 32) × (age ≤ 30 * 2 ^ 32) × (ticks ≤ 60 * rate) }
    ensures { result ≡ lateness rate delay age ticks }
{
    let later = (rate as u64) * delay + (ticks as u64) * SECOND;
    let earlier = (rate as u64) * age;
    (later as i64) - (earlier as i64)
}

// The lateness of a settings packet's three times for a loudspeaker of this group, media source and rate, at its own
// reading; or 12, 13, 15, 16 or 17.
pub fn target_lateness(opening: Opening, s: Settings, at: Reading) -> Result<i64, RefusalNumber>
    ensures { result ≡ lateness_asked opening s at }
{
    target_number(opening, s, at)?;
    let delay = delay_between(s.received, s.presented);
    let age = ntp_age(at.ntp, s.received);
    let ticks = rtp_age(at.rtp, s.rtp);
    Ok(lateness_by(opening.rate, delay, age, ticks))
}
