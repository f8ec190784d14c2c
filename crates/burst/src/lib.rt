// A burst of reports at once: what is checked before any of them is tried.
#![tactic(auto)]

ghost use Rattle.std.specs.Prelude.{◌≡◌};
ghost use Rattle.burst.specs.Burst.{burst_checked};

use refusals::RefusalNumber;

// The most reports that a burst may have.
const BURST_LIMIT: usize = 64;

// Checks 23 and 24, in that order, for so many reports and a lent list of such a length: how many of the reports are
// tried, which is all of them, or a refusal.
#[tactic(auto, unfolding(crate::specs::Burst::burst_checks))]
pub fn check_burst(reports: usize, list_length: usize) -> Result<usize, RefusalNumber>
    ensures { result ≡ burst_checked reports list_length }
{
    if BURST_LIMIT < reports {
        return Err(RefusalNumber::LongBurst);
    }
    if list_length < reports {
        return Err(RefusalNumber::ShortAnswers);
    }
    Ok(reports)
}
