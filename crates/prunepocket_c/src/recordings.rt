// A site recording.
ghost use Rattle.std.specs.Prelude.{◌≡◌};
ghost use Rattle.replay.specs.Replay.{replayed, replayed_rows};
ghost use Rattle.prunepocket.specs.Recordings.{recording_answered};

use prunepocket::RecordingAnswered;

// Runs a recording through a table that is opened for its head, with a row of three numbers for each entry, and chooses
// at the last one's reading.
#[unsafe(no_mangle)]
pub extern "C" fn prunepocket_replay(recording: &[u8], rows: &mut [u64]) -> RecordingAnswered
    ensures { (result ≡ recording_answered (replayed recording.now rows.old))
        × (rows.new ≡ replayed_rows recording.now rows.old) }
{
    prunepocket::prunepocket_replay(recording, rows)
}
