// Whether a settings packet suits the counted members (document 02, E9): it is compared with the greatest lateness.
ghost use Rattle.std.specs.Prelude.{cond, ◌&&◌, ◌||◌, ◌≡◌, ◌+◌, ◌*◌, ◌^◌, ◌≤◌, leb};
ghost use Rattle.times.specs.Times.{settings_delay};
ghost use Rattle.places.specs.Places.{is_free};
ghost use Rattle.register.specs.SettingsCheck.{verdict};
ghost use Rattle.register.specs.Tallies.{records_of};
ghost use Rattle.choosing.specs.Marked.{marked_at};
ghost use Rattle.choosing.specs.Lateness.{biased_of, biased_settings, greatest};

use crate::{counted_word, late_by, marks_at, member_lateness};
use checks::settings_number;
use idms::Settings;
use refusals::RefusalNumber;
use register::{Member, Opening, Reading};
use times::{ntp_age, rtp_age, settings_delay};

// The greatest lateness and 30 s more, after a member that a word's lowest bit marks or not.
fn greatest_next(word: u64, most: u128, member: &Member, rate: u32, at: Reading) -> u128
    ensures { result
        ≡ cond (is_free word || leb (biased_of rate at member.now.«record») most) most
        (biased_of rate at member.now.«record») }
{
    if word % 2 == 0 {
        return most;
    }
    let late = member_lateness(member.record, rate, at);
    if late <= most {
        return most;
    }
    late
}

// That of the members that a word marks, or 0 where it marks none.
fn greatest_lateness(word: u64, members: &[Member; 64], rate: u32, at: Reading) -> u128
    ensures { result ≡ greatest (biased_of rate at) 0 (marked_at word (records_of members.now)) }
{
    let mut most = 0;
    let mut rest = word;
    for member in members.iter() {
        most = greatest_next(rest, most, member, rate, at);
        rest /= 2;
    }
    most
}

// Whether a lateness is at least the greatest, and exceeds it by no more than a slack allows: rate × slack × 2^16.
fn is_within(late: u128, most: u128, rate: u32, slack: u32) -> bool
    ensures { result ≡ (leb most late && leb late (most + rate * slack * 2 ^ 16)) }
{
    most <= late && late - most <= (rate as u128) * (slack as u128) * 65536
}

// A settings packet's lateness and 30 s more.
fn settings_lateness(s: Settings, rate: u32, at: Reading) -> u128
    ensures { result ≡ biased_settings rate at s }
{
    let delay = settings_delay(s.received, s.presented);
    let age = ntp_age(at.ntp, s.received);
    let ticks = rtp_age(at.rtp, s.rtp);
    late_by(rate, delay, age, ticks)
}

// Whether a settings packet suits the members at the places held of a table for this opening.
pub fn verdict_at(
    opening: Opening,
    held: u64,
    members: [Member; 64],
    s: Settings,
    at: Reading,
    slack: u32,
) -> Result<bool, RefusalNumber>
    ensures { result ≡ verdict opening at (marked_at held (records_of members)) s slack }
{
    let counted = counted_word(marks_at(held, members, opening.rate, at));
    settings_number(opening, s, at, slack, counted == 0)?;
    let most = greatest_lateness(counted, &members, opening.rate, at);
    let late = settings_lateness(s, opening.rate, at);
    Ok(is_within(late, most, opening.rate, slack))
}
