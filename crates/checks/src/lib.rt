// The checks of the member table on plain values: 12 of an opening, 13 to 18 of a report in their order, and those of a
// settings packet in theirs. Whether 14, 18 and 20 apply is told, since that is seen in the table.
#![tactic(auto)]

mod settings;

ghost use Rattle.std.specs.Prelude.{◌≡◌, not, ◌&&◌, eqb};
ghost use Rattle.refusals.specs.Refusals.{answer_number};
ghost use Rattle.times.specs.Times.{is_badly_presented};
ghost use Rattle.register.specs.Register.{is_refused_opening, is_other_stream, report_checks};

use refusals::RefusalNumber;
use register::{Opening, Reading, Record};
pub use settings::settings_number;
use times::{is_aged, is_badly_presented, is_far};

// Whether 12 is given, whatever the media source.
pub fn is_refused_opening(opening: Opening) -> bool
    ensures { result ≡ is_refused_opening opening }
{
    opening.group == 0 || opening.group == 4294967295 || opening.rate == 0 || 192000 < opening.rate
}

// Check 13: another group or media source.
pub(crate) fn is_other_stream(opening: Opening, group: u32, media: u32) -> bool
    ensures { result ≡ is_other_stream opening group media }
{
    group != opening.group || media != opening.media
}

// Check 17, of any report.
fn presents_badly(p: u8, received: u64, presented: u32) -> bool
    ensures { result ≡ (not (eqb p 0) && is_badly_presented received presented) }
{
    p != 0 && is_badly_presented(received, presented)
}

// The first check that applies to a report. `elsewhere` says whether its number is held by another origin, `full`
// whether it is new and all places are held.
#[tactic(auto, unfolding(register::specs::Register::report_checks))]
pub fn report_number(
    opening: Opening,
    x: Record,
    at: Reading,
    elsewhere: bool,
    full: bool,
) -> Result<(), RefusalNumber>
    ensures { answer_number result ≡ report_checks opening x at elsewhere full }
{
    let report = x.report;
    if is_other_stream(opening, report.group, report.media) {
        return Err(RefusalNumber::OtherStream);
    }
    if elsewhere {
        return Err(RefusalNumber::OtherOrigin);
    }
    if is_far(at.ntp, report.received) {
        return Err(RefusalNumber::ReceivedFar);
    }
    if is_aged(opening.rate, at.rtp, report.rtp) {
        return Err(RefusalNumber::RtpAged);
    }
    if presents_badly(report.p, report.received, report.presented) {
        return Err(RefusalNumber::BadlyPresented);
    }
    if full {
        return Err(RefusalNumber::NoRoom);
    }
    Ok(())
}
