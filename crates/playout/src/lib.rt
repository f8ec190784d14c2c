// A loudspeaker's playout clock (document 02, E10): a tick, and a set of its target. The record itself is lent to the
// exports of crate prunepocket, which read it, call these and write the one field back.
#![tactic(auto)]

ghost use Rattle.std.specs.Prelude.{◌≡◌};
ghost use Rattle.playout.specs.PlayoutClock.{ClockCall, is_bad_step, is_outside, clock_checks, clock_answer};
ghost use Rattle.playout.specs.PlayoutClock.{towards, ticked, target_set};

use refusals::RefusalNumber;

// How late a loudspeaker plays, how late it is to play, and the most by which one tick changes the first.
#[repr(C)]
#[derive(Clone, Copy)]
pub struct PlayoutClock {
    pub current: i64,
    pub target: i64,
    pub step: i64,
}

// The greatest step and the greatest value, 2^57, and the least value.
const LATENESS_LIMIT: i64 = 1 << 57;

const LEAST_LATENESS: i64 = -LATENESS_LIMIT;

// Check 26.
fn is_bad_step(step: i64) -> bool
    ensures { result ≡ is_bad_step step }
{
    !(1..=LATENESS_LIMIT).contains(&step)
}

// Check 27, of one value.
fn is_outside(value: i64) -> bool
    ensures { result ≡ is_outside value }
{
    !(LEAST_LATENESS..=LATENESS_LIMIT).contains(&value)
}

impl PlayoutClock {
    // The first check that applies to a record.
    #[tactic(auto, unfolding(crate::specs::PlayoutClock::clock_checks))]
    fn check(self) -> Result<(), RefusalNumber>
        ensures { result ≡ clock_checks self }
    {
        if is_bad_step(self.step) {
            return Err(RefusalNumber::BadStep);
        }
        if is_outside(self.current) || is_outside(self.target) {
            return Err(RefusalNumber::OutsideRange);
        }
        Ok(())
    }

    // Current moved towards target by the lesser of the step and what is left.
    fn moved(self) -> i64
        requires { clock_answer self ClockCall.tick ≡ 0 }
        ensures { result ≡ towards self.current self.target self.step }
    {
        if self.current <= self.target {
            self.current + self.step.min(self.target - self.current)
        } else {
            self.current - self.step.min(self.current - self.target)
        }
    }

    #[tactic(auto, unfolding(crate::specs::PlayoutClock::clock_after))]
    // A tick: the current lateness afterwards, or 26 or 27.
    pub fn tick(self) -> Result<i64, RefusalNumber>
        ensures { result ≡ ticked self }
    {
        self.check()?;
        Ok(self.moved())
    }

    #[tactic(auto, unfolding(crate::specs::PlayoutClock::clock_after))]
    // A set of a new target: the target afterwards, or 26 or 27.
    pub fn set_target(self, target: i64) -> Result<i64, RefusalNumber>
        ensures { result ≡ target_set self target }
    {
        PlayoutClock { target, ..self }.check()?;
        Ok(target)
    }
}
