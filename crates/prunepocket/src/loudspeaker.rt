// The loudspeaker's side for C, which lends the record of its playout clock (document 02, E10).
ghost use Rattle.std.specs.Prelude.{◌≡◌};
ghost use Rattle.playout.specs.PlayoutClock.{ClockCall, clock_answer, clock_after};
ghost use Rattle.prunepocket.specs.Loudspeaker.{lateness_answered};

use idms::Settings;
use playout::PlayoutClock;
use register::{Opening, Reading};
use settings_target::target_lateness;

// A refusal's number or 0, and the lateness, which is 0 after a refusal.
#[repr(C)]
#[derive(Clone, Copy)]
pub struct LatenessAnswered {
    pub number: u64,
    pub lateness: i64,
}

// How late a settings packet asks a loudspeaker to play, at its own reading.
pub fn prunepocket_target_lateness(
    group: u32,
    media: u32,
    rate: u32,
    s: Settings,
    at: Reading,
) -> LatenessAnswered
    ensures { result ≡ lateness_answered (record { group = group; media = media; rate = rate }) s at }
{
    match target_lateness(Opening { group, media, rate }, s, at) {
        Ok(lateness) => LatenessAnswered {
            number: 0,
            lateness,
        },
        Err(refused) => LatenessAnswered {
            number: refused.number(),
            lateness: 0,
        },
    }
}

// Writes the clock's target; or 26 or 27, and the record stays as it was.
pub fn prunepocket_set_target(clock: &mut PlayoutClock, target: i64) -> u64
    ensures { (result ≡ clock_answer clock.old (ClockCall.set target))
        × (clock.new ≡ clock_after clock.old (ClockCall.set target)) }
{
    match clock.set_target(target) {
        Ok(written) => {
            clock.target = written;
            0
        }
        Err(refused) => refused.number(),
    }
}

// Moves the clock's current towards its target; or 26 or 27, and the record stays as it was.
pub fn prunepocket_tick(clock: &mut PlayoutClock) -> u64
    ensures { (result ≡ clock_answer clock.old ClockCall.tick)
        × (clock.new ≡ clock_after clock.old ClockCall.tick) }
{
    match clock.tick() {
        Ok(moved) => {
            clock.current = moved;
            0
        }
        Err(refused) => refused.number(),
    }
}
