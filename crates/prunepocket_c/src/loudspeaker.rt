// The loudspeaker's side (document 02, E10).
ghost use Rattle.std.specs.Prelude.{◌≡◌};
ghost use Rattle.playout.specs.PlayoutClock.{ClockCall, clock_answer, clock_after};
ghost use Rattle.prunepocket.specs.Loudspeaker.{lateness_answered};

use idms::Settings;
use playout::PlayoutClock;
use prunepocket::LatenessAnswered;
use register::Reading;

// How late a settings packet asks a loudspeaker to play, at its own reading.
#[unsafe(no_mangle)]
pub extern "C" fn prunepocket_target_lateness(
    group: u32,
    media: u32,
    rate: u32,
    s: Settings,
    at: Reading,
) -> LatenessAnswered
    ensures { result ≡ lateness_answered (record { group = group; media = media; rate = rate }) s at }
{
    prunepocket::prunepocket_target_lateness(group, media, rate, s, at)
}

// Writes the clock's target; or 26 or 27, and the record stays as it was.
#[unsafe(no_mangle)]
pub extern "C" fn prunepocket_set_target(clock: &mut PlayoutClock, target: i64) -> u64
    ensures { (result ≡ clock_answer clock.old (ClockCall.set target))
        × (clock.new ≡ clock_after clock.old (ClockCall.set target)) }
{
    prunepocket::prunepocket_set_target(clock, target)
}

// Moves the clock's current towards its target; or 26 or 27, and the record stays as it was.
#[unsafe(no_mangle)]
pub extern "C" fn prunepocket_tick(clock: &mut PlayoutClock) -> u64
    ensures { (result ≡ clock_answer clock.old ClockCall.tick)
        × (clock.new ≡ clock_after clock.old ClockCall.tick) }
{
    prunepocket::prunepocket_tick(clock)
}
