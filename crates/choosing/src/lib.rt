// Choosing: one pass over the places marks the members that count, another finds the latest. Beside it, whether a
// settings packet suits those members.
#![tactic(auto)]

mod verdict;

ghost use Rattle.std.specs.Prelude.{not, cond, ◌&&◌, ◌≡◌, ◌+◌, ◌*◌, ◌^◌, ◌≤◌, ◌<◌, Ok};
ghost use Rattle.places.specs.Places.{is_free, held_in, bit};
ghost use Rattle.times.specs.Times.{expanded};
ghost use Rattle.register.specs.Register.{presents, fresh_at};
ghost use Rattle.register.specs.Choosing.{delay_of, target_of};
ghost use Rattle.register.specs.Tallies.{records_of};
ghost use Rattle.choosing.specs.Marked.{marked_at};
ghost use Rattle.choosing.specs.Choose.{at_rate, marks_at, counted_in, latest_target, choice_among};
ghost use Rattle.choosing.specs.Lateness.{biased, biased_of, biased_late};
ghost use Rattle.choosing.specs.Lateness.{candidate_at, stays_latest, latest_next, IsLatest};

use places::{count_held, with_place};
use refusals::RefusalNumber;
use register::{Member, Reading, Record, Target};
use times::{THIRTY_SECONDS, is_fresh, ntp_age, presentation, presentation_delay, rtp_age};
pub use verdict::verdict_at;

// The places whose member is fresh, and those of them whose member reports presentation.
#[derive(Clone, Copy)]
pub struct Marks {
    pub fresh: u64,
    pub presenting: u64,
}

// A member that a word marks: its place, with its lateness and its number.
#[derive(Clone, Copy)]
struct Candidate {
    place: usize,
    late: u128,
    source: u32,
}

// Whether a word's lowest bit marks a member that is fresh.
fn is_marked_fresh(word: u64, row: Record, rate: u32, at: Reading) -> bool
    ensures { result ≡ (not (is_free word) && fresh_at (at_rate rate) at row) }
{
    word % 2 != 0 && is_fresh(rate, at.ntp, at.rtp, row.report.received, row.report.rtp)
}

// A word of i bits with one more in front.
#[tactic(auto, using(crate::proofs::Laws::Marked::bit_in_front))]
fn with_bit(word: u64, i: usize, yes: bool) -> u64
    requires { (i < 64) × (word < 2 ^ i) }
    ensures { (result ≡ word + bit yes * 2 ^ i) × (result < 2 ^ (i + 1)) }
{
    if yes {
        return with_place(word, i);
    }
    word
}

// Each place in turn: the word's lowest bit marks it, and the word is halved.
pub fn marks_at(held: u64, members: [Member; 64], rate: u32, at: Reading) -> Marks
    ensures { result ≡ marks_at rate at held (records_of members) }
{
    let mut fresh: u64 = 0;
    let mut presenting: u64 = 0;
    let mut word = held;
    for (i, member) in members.iter().enumerate() {
        let yes = is_marked_fresh(word, member.record, rate, at);
        fresh = with_bit(fresh, i, yes);
        presenting = with_bit(presenting, i, yes && member.record.report.p != 0);
        word /= 2;
    }
    Marks { fresh, presenting }
}

// Lateness and 30 s more, from a delay, an NTP age and an RTP age.
#[tactic(auto, unfolding(crate::specs::Lateness::biased))]
pub(crate) fn late_by(rate: u32, delay: u64, age: u64, ticks: u32) -> u128
    ensures { result ≡ biased rate delay age ticks }
{
    let time = (delay as u128 + THIRTY_SECONDS as u128).saturating_sub(age as u128);
    (rate as u128) * time + (ticks as u128) * 4294967296
}

// A counted member's delay: 0 with P 0, which counts in arrival mode alone.
fn delay_of(row: Record) -> u64
    ensures { result ≡ delay_of row }
{
    if row.report.p == 0 {
        return 0;
    }
    presentation_delay(row.report.received, row.report.presented)
}

// A member's lateness and 30 s more.
pub(crate) fn member_lateness(row: Record, rate: u32, at: Reading) -> u128
    ensures { result ≡ biased_of rate at row }
{
    let delay = delay_of(row);
    let age = ntp_age(at.ntp, row.report.received);
    let ticks = rtp_age(at.rtp, row.report.rtp);
    late_by(rate, delay, age, ticks)
}

// The member at a place, as a candidate.
fn candidate_at(place: usize, member: Member, rate: u32, at: Reading) -> Candidate
    ensures { result ≡ candidate_at rate at place member.«record» }
{
    Candidate {
        place,
        late: member_lateness(member.record, rate, at),
        source: member.record.source,
    }
}

// Whether a goes before b: it is later, or as late with a number no higher.
fn stays_latest(a: Candidate, b: Candidate) -> bool
    ensures { result ≡ stays_latest a b }
{
    b.late < a.late || b.late == a.late && a.source <= b.source
}

// The latest after the member at a place, which a word's lowest bit marks or not.
fn latest_next(
    word: u64,
    latest: Option<Candidate>,
    place: usize,
    member: Member,
    rate: u32,
    at: Reading,
) -> Option<Candidate>
    ensures { result ≡ latest_next word latest (candidate_at rate at place member.«record») }
{
    if word % 2 == 0 {
        return latest;
    }
    let next = candidate_at(place, member, rate, at);
    match latest {
        Some(first) if stays_latest(first, next) => latest,
        _ => Some(next),
    }
}

// The latest of the members that a word marks.
fn latest_marked(word: u64, members: &[Member; 64], rate: u32, at: Reading) -> Option<Candidate>
    ensures { IsLatest rate at word (records_of members.now) result }
{
    let mut latest = None;
    let mut rest = word;
    for (place, member) in members.iter().enumerate() {
        latest = latest_next(rest, latest, place, *member, rate, at);
        rest /= 2;
    }
    latest
}

// The presented time of a target: 0 in arrival mode.
fn presented_of(row: Record) -> u64
    ensures { result ≡ cond (presents row) (expanded row.report.received row.report.presented) 0 }
{
    if row.report.p == 0 {
        return 0;
    }
    presentation(row.report.received, row.report.presented)
}

// A member as the target, with how many were counted.
fn target_of(row: Record, counted: u32) -> Target
    ensures { Ok result ≡ target_of row counted }
{
    let presented = presented_of(row);
    Target {
        source: row.source,
        group: row.report.group,
        media: row.report.media,
        received: row.report.received,
        rtp: row.report.rtp,
        presented,
        counted,
    }
}

// The latest of the members that a word marks, all of them counted, or 20 where it marks none.
fn choice_in(
    word: u64,
    members: &[Member; 64],
    rate: u32,
    at: Reading,
) -> Result<Target, RefusalNumber>
    ensures { result ≡ latest_target (biased_late rate at) (held_in 64 word) (marked_at word (records_of members.now)) }
{
    match latest_marked(word, members, rate, at) {
        Some(latest) => Ok(target_of(members[latest.place].record, count_held(word))),
        None => Err(RefusalNumber::NoneCounted),
    }
}

// The members that report presentation count; where none does, all that are fresh, in arrival mode.
pub(crate) fn counted_word(marks: Marks) -> u64
    ensures { result ≡ counted_in marks }
{
    if marks.presenting == 0 {
        return marks.fresh;
    }
    marks.presenting
}

// The target among the members at the places held, or 20.
pub fn choice_at(
    held: u64,
    members: [Member; 64],
    rate: u32,
    at: Reading,
) -> Result<Target, RefusalNumber>
    ensures { result ≡ choice_among rate at held (records_of members) }
{
    let marks = marks_at(held, members, rate, at);
    choice_in(counted_word(marks), &members, rate, at)
}
