// The checks of a settings packet (document 02, E9), in their order.
ghost use Rattle.std.specs.Prelude.{◌≡◌};
ghost use Rattle.register.specs.SettingsCheck.{settings_checks};

use crate::is_other_stream;
use idms::Settings;
use refusals::RefusalNumber;
use register::{Opening, Reading};
use times::{is_aged, is_far, settings_are_badly_presented};

// The greatest slack, in units of 2^-16 s: 30 s.
const SLACK_LIMIT: u32 = 1966080;

// The first check that applies to a settings packet. `none` says whether no member is counted.
#[tactic(auto, unfolding(register::specs::SettingsCheck::settings_checks))]
pub fn settings_number(
    opening: Opening,
    s: Settings,
    at: Reading,
    slack: u32,
    none: bool,
) -> Result<(), RefusalNumber>
    ensures { result ≡ settings_checks opening s at slack none }
{
    if SLACK_LIMIT < slack {
        return Err(RefusalNumber::OutOfRange);
    }
    if none {
        return Err(RefusalNumber::NoneCounted);
    }
    if is_other_stream(opening, s.group, s.media) {
        return Err(RefusalNumber::OtherStream);
    }
    if is_far(at.ntp, s.received) {
        return Err(RefusalNumber::ReceivedFar);
    }
    if is_aged(opening.rate, at.rtp, s.rtp) {
        return Err(RefusalNumber::RtpAged);
    }
    if settings_are_badly_presented(s.received, s.presented) {
        return Err(RefusalNumber::BadlyPresented);
    }
    Ok(())
}
