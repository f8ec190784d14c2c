// The member table for C, which holds it by value and passes it from call to call.
ghost use Rattle.std.specs.Prelude.{◌≡◌};
ghost use Rattle.register.specs.Register.{Call};
ghost use Rattle.table.specs.Members.{member_count, place_at};
ghost use Rattle.table.specs.Calls.{opened, answered};
ghost use Rattle.table.specs.Choose.{choice_of};
ghost use Rattle.table.specs.SettingsCheck.{verdict_on};
ghost use Rattle.burst.specs.Burst.{burst_answered, burst_answers_after};
ghost use Rattle.intake.specs.Datagrams.{datagram_answered, answers_after};
ghost use Rattle.prunepocket.specs.Answers.{agreed};
ghost use Rattle.prunepocket.specs.Following.{no_target, followed_of};
ghost use Rattle.prunepocket.specs.SettingsCheck.{settings_answered};

use crate::is_agreed;
use burst::check_burst;
use idms::Settings;
use intake::{DatagramAnswered, take_datagram};
use origin::Origin;
use refusals::RefusalNumber;
use register::{Opening, Reading, Record, Target};
use table::{Answered, Place, Table};

// What choosing answers: 0 and the target, or a refusal's number and a target of zeros; and the table as it was.
#[repr(C)]
#[derive(Clone, Copy)]
pub struct Followed {
    pub number: u64,
    pub target: Target,
    pub table: Table,
}

// What checking a settings packet answers: 0 and whether it suits, 1 or 0, or a refusal's number and 0; and the table
// as it was.
#[repr(C)]
#[derive(Clone, Copy)]
pub struct SettingsAnswered {
    pub number: u64,
    pub suits: u32,
    pub table: Table,
}

// A table for a group, a media source and a clock rate, or 12.
pub fn prunepocket_open(group: u32, media: u32, rate: u32) -> Answered
    ensures { result ≡ opened (record { group = group; media = media; rate = rate }) }
{
    Table::open(Opening { group, media, rate })
}

// A report under its origin, at the sender's reading.
pub fn prunepocket_report(t: Table, x: Record, at: Reading) -> Answered
    ensures { result ≡ answered t (Call.report x at) }
{
    t.report(x, at)
}

// Every report of a burst, in order, at one reading, each with its number in the list; or 23 or 24, and none is tried.
pub fn prunepocket_report_burst(
    mut t: Table,
    reports: &[Record],
    at: Reading,
    answers: &mut [u64],
) -> Answered
    ensures { (result ≡ burst_answered t reports.now at answers.old)
        × (answers.new ≡ burst_answers_after t reports.now at answers.old) }
{
    let tried = match check_burst(reports.len(), answers.len()) {
        Ok(tried) => tried,
        Err(refused) => {
            return Answered {
                number: refused.number(),
                table: t,
            };
        }
    };
    for i in 0..tried {
        let f = t.filing(reports[i], at);
        t.members[f.place] = f.member;
        t.held = f.held;
        answers[i] = f.number;
    }
    Answered {
        number: 0,
        table: t,
    }
}

// A farewell, which is a BYE source, under its origin.
pub fn prunepocket_farewell(t: Table, source: u32, origin: Origin) -> Answered
    ensures { result ≡ answered t (Call.farewell source origin) }
{
    t.farewell(source, origin)
}

// Removes every member that is not fresh at the reading.
pub fn prunepocket_sweep(t: Table, at: Reading) -> Answered
    ensures { result ≡ answered t (Call.sweep at) }
{
    t.sweep(at)
}

// Every report and farewell of a datagram, in order, each with its number in the list.
pub fn prunepocket_take_datagram(
    t: Table,
    datagram: &[u8],
    reduced_size: u32,
    origin: Origin,
    at: Reading,
    answers: &mut [u64],
) -> DatagramAnswered
    ensures value { result
        ≡ datagram_answered t (agreed reduced_size) datagram.now origin at answers.old }
    ensures answers_after { answers.new
        ≡ answers_after t (agreed reduced_size) datagram.now origin at answers.old }
{
    take_datagram(t, datagram, is_agreed(reduced_size), origin, at, answers)
}

// How many members there are.
pub fn prunepocket_count_members(t: Table) -> u32
    ensures { result ≡ member_count t }
{
    t.count_members()
}

// The member at a place, if there is one.
pub fn prunepocket_member_at(t: Table, place: usize) -> Place
    ensures { result ≡ place_at t place }
{
    t.member_at(place)
}

// The target that stands for none.
pub(crate) fn no_target() -> Target
    ensures { result ≡ no_target }
{
    Target {
        source: 0,
        group: 0,
        media: 0,
        received: 0,
        rtp: 0,
        presented: 0,
        counted: 0,
    }
}

// A choice as numbers alone: an enum does not pass C's boundary. As `From` of a choice with a table it would be no
// plainer.
#[tactic(auto, unfolding(crate::specs::Following::followed_of))]
fn followed_by(choice: Result<Target, RefusalNumber>, t: Table) -> Followed
    ensures { result ≡ followed_of choice t }
{
    match choice {
        Ok(x) => Followed {
            number: 0,
            target: x,
            table: t,
        },
        Err(refused) => Followed {
            number: refused.number(),
            target: no_target(),
            table: t,
        },
    }
}

// The target at the reading, or 20.
pub fn prunepocket_choose(t: Table, at: Reading) -> Followed
    ensures { result ≡ followed_of (choice_of t at) t }
{
    let chosen = t.choose(at);
    followed_by(chosen.choice, chosen.table)
}

// A verdict as numbers alone.
#[tactic(auto, unfolding(crate::specs::SettingsCheck::settings_answered))]
fn answered_by(verdict: Result<bool, RefusalNumber>, t: Table) -> SettingsAnswered
    ensures { result ≡ settings_answered verdict t }
{
    match verdict {
        Ok(suits) => SettingsAnswered {
            number: 0,
            suits: suits as u32,
            table: t,
        },
        Err(refused) => SettingsAnswered {
            number: refused.number(),
            suits: 0,
            table: t,
        },
    }
}

// Whether a settings packet suits the members at the reading, or 11, 20, 13, 15, 16 or 17.
pub fn prunepocket_check_settings(
    t: Table,
    s: Settings,
    at: Reading,
    slack: u32,
) -> SettingsAnswered
    ensures { result ≡ settings_answered (verdict_on t s at slack) t }
{
    let checked = t.check_settings(s, at, slack);
    answered_by(checked.verdict, checked.table)
}
