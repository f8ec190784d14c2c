// The member table, which C holds by value and passes from call to call.
ghost use Rattle.std.specs.Prelude.{◌≡◌};
ghost use Rattle.register.specs.Register.{Call};
ghost use Rattle.table.specs.Members.{member_count, place_at};
ghost use Rattle.table.specs.Calls.{opened, answered};
ghost use Rattle.table.specs.Choose.{choice_of};
ghost use Rattle.table.specs.SettingsCheck.{verdict_on};
ghost use Rattle.burst.specs.Burst.{burst_answered, burst_answers_after};
ghost use Rattle.intake.specs.Datagrams.{datagram_answered, answers_after};
ghost use Rattle.prunepocket.specs.Answers.{agreed};
ghost use Rattle.prunepocket.specs.Following.{followed_of};
ghost use Rattle.prunepocket.specs.SettingsCheck.{settings_answered};

use idms::Settings;
use intake::DatagramAnswered;
use origin::Origin;
use prunepocket::{Followed, SettingsAnswered};
use register::{Reading, Record};
use table::{Answered, Place, Table};

// A table for a group, a media source and a clock rate, or 12.
#[unsafe(no_mangle)]
pub extern "C" fn prunepocket_open(group: u32, media: u32, rate: u32) -> Answered
    ensures { result ≡ opened (record { group = group; media = media; rate = rate }) }
{
    prunepocket::prunepocket_open(group, media, rate)
}

// A report under its origin, at the sender's reading.
#[unsafe(no_mangle)]
pub extern "C" fn prunepocket_report(t: Table, x: Record, at: Reading) -> Answered
    ensures { result ≡ answered t (Call.report x at) }
{
    prunepocket::prunepocket_report(t, x, at)
}

// Every report of a burst, in order, at one reading, each with its number in the list; or 23 or 24, and none is tried.
#[unsafe(no_mangle)]
pub extern "C" fn prunepocket_report_burst(
    t: Table,
    reports: &[Record],
    at: Reading,
    answers: &mut [u64],
) -> Answered
    ensures { (result ≡ burst_answered t reports.now at answers.old)
        × (answers.new ≡ burst_answers_after t reports.now at answers.old) }
{
    prunepocket::prunepocket_report_burst(t, reports, at, answers)
}

// A farewell, which is a BYE source, under its origin.
#[unsafe(no_mangle)]
pub extern "C" fn prunepocket_farewell(t: Table, source: u32, origin: Origin) -> Answered
    ensures { result ≡ answered t (Call.farewell source origin) }
{
    prunepocket::prunepocket_farewell(t, source, origin)
}

// Removes every member that is not fresh at the reading.
#[unsafe(no_mangle)]
pub extern "C" fn prunepocket_sweep(t: Table, at: Reading) -> Answered
    ensures { result ≡ answered t (Call.sweep at) }
{
    prunepocket::prunepocket_sweep(t, at)
}

// Every report and farewell of a datagram, in order, each with its number in the list.
#[unsafe(no_mangle)]
pub extern "C" fn prunepocket_take_datagram(
    t: Table,
    datagram: &[u8],
    reduced_size: u32,
    origin: Origin,
    at: Reading,
    answers: &mut [u64],
) -> DatagramAnswered
    ensures value { result
        ≡ datagram_answered t (agreed reduced_size) datagram.now origin at answers.old }
    ensures answers_after { answers.new
        ≡ answers_after t (agreed reduced_size) datagram.now origin at answers.old }
{
    prunepocket::prunepocket_take_datagram(t, datagram, reduced_size, origin, at, answers)
}

// How many members there are.
#[unsafe(no_mangle)]
pub extern "C" fn prunepocket_count_members(t: Table) -> u32
    ensures { result ≡ member_count t }
{
    prunepocket::prunepocket_count_members(t)
}

// The member at a place, if there is one.
#[unsafe(no_mangle)]
pub extern "C" fn prunepocket_member_at(t: Table, place: usize) -> Place
    ensures { result ≡ place_at t place }
{
    prunepocket::prunepocket_member_at(t, place)
}

// The target at the reading, or 20.
#[unsafe(no_mangle)]
pub extern "C" fn prunepocket_choose(t: Table, at: Reading) -> Followed
    ensures { result ≡ followed_of (choice_of t at) t }
{
    prunepocket::prunepocket_choose(t, at)
}

// Whether a settings packet suits the members at the reading, or 11, 20, 13, 15, 16 or 17.
#[unsafe(no_mangle)]
pub extern "C" fn prunepocket_check_settings(
    t: Table,
    s: Settings,
    at: Reading,
    slack: u32,
) -> SettingsAnswered
    ensures { result ≡ settings_answered (verdict_on t s at slack) t }
{
    prunepocket::prunepocket_check_settings(t, s, at, slack)
}
