// A site recording, for C.
ghost use Rattle.std.specs.Prelude.{◌≡◌};
ghost use Rattle.replay.specs.Replay.{replayed, replayed_rows};
ghost use Rattle.prunepocket.specs.Recordings.{choice_number, choice_target, recording_answered};

use crate::members::no_target;
use refusals::RefusalNumber;
use register::Target;
use replay::{Replayed, replay};

// What a replay answers, as numbers alone: the refusal's number or 0, how many entries there are, the number that
// choosing gave, and the target.
#[repr(C)]
#[derive(Clone, Copy)]
pub struct RecordingAnswered {
    pub number: u64,
    pub entries: u64,
    pub choice: u64,
    pub target: Target,
}

// The number that choosing gave.
fn choice_number(choice: Result<Target, RefusalNumber>) -> u64
    ensures { result ≡ choice_number choice }
{
    match choice {
        Ok(_) => 0,
        Err(refused) => refused.number(),
    }
}

// The target, or the one that stands for none.
fn choice_target(choice: Result<Target, RefusalNumber>) -> Target
    ensures { result ≡ choice_target choice }
{
    match choice {
        Ok(x) => x,
        Err(_) => no_target(),
    }
}

// A replay's answer as numbers alone: an enum does not pass C's boundary.
#[tactic(auto, unfolding(crate::specs::Recordings::recording_answered))]
fn answer_replay(r: Result<Replayed, RefusalNumber>) -> RecordingAnswered
    ensures { result ≡ recording_answered r }
{
    match r {
        Ok(replayed) => RecordingAnswered {
            number: 0,
            entries: replayed.entries as u64,
            choice: choice_number(replayed.choice),
            target: choice_target(replayed.choice),
        },
        Err(refused) => RecordingAnswered {
            number: refused.number(),
            entries: 0,
            choice: RefusalNumber::NoneCounted.number(),
            target: no_target(),
        },
    }
}

// Runs a recording through a table that is opened for its head, with a row of three numbers for each entry, and chooses
// at the last one's reading.
pub fn prunepocket_replay(recording: &[u8], rows: &mut [u64]) -> RecordingAnswered
    ensures { (result ≡ recording_answered (replayed recording.now rows.old))
        × (rows.new ≡ replayed_rows recording.now rows.old) }
{
    answer_replay(replay(recording, rows))
}
