// What one refusal with 14 does to a tally.
ghost use Rattle.std.specs.Prelude.{◌≡◌};
ghost use Rattle.register.specs.Tallies.{raised};

use register::TALLY_LIMIT;

// A tally with one refusal more, up to the limit.
pub(crate) fn raised(tally: u32) -> u32
    ensures { result ≡ raised tally }
{
    tally.saturating_add(1).min(TALLY_LIMIT)
}
