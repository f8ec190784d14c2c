// The line of a site file that carries the group number, for C.
ghost use Rattle.std.specs.Prelude.{◌≡◌};
ghost use Rattle.sdp.specs.Line.{group_message};
ghost use Rattle.sdp.specs.Answers.{group_in};
ghost use Rattle.prunepocket.specs.Messages.{Wrote};
ghost use Rattle.prunepocket.specs.SiteFile.{group_answer, group_after};

use crate::{Answer, accept, answer_write, bytes_written, refuse_at_zero};

// Puts the group number of a line into `group`, which a refusal leaves as it was.
pub fn prunepocket_read_sync_group(line: &[u8], group: &mut u32) -> Answer
    ensures { (result ≡ group_answer (group_in line.now))
        × (group.new ≡ group_after (group_in line.now) group.old) }
{
    match sdp::read_sync_group(line) {
        Err(refused) => refuse_at_zero(refused),
        Ok(n) => {
            *group = n;
            accept()
        }
    }
}

// Writes the line of a group number to the front of `bytes` and puts how many bytes it took into `written`. A refusal
// leaves both as they were.
pub fn prunepocket_write_sync_group(group: u32, bytes: &mut [u8], written: &mut u64) -> Answer
    ensures { Wrote (group_message group)
        bytes.old written.old result bytes.new written.new }
{
    let w = sdp::write_sync_group(group, bytes);
    *written = bytes_written(w, *written);
    answer_write(w)
}
