// The blocks of an XR packet, and the IDMS report among them.
ghost use Rattle.std.specs.Prelude.{◌≡◌, ◌+◌, ◌≤◌, length};
ghost use Rattle.packet.specs.Report.{report_at};
ghost use Rattle.packet.specs.Answers.{block_is, block_item, report_is};

use crate::bytes::{read16, read32, read64};
use idms::Report;
use packet_checks::{Block, idms_block, presented};
use refusals::RefusalNumber;

// What a block gives: its report, or nothing, with the bytes to step over.
#[derive(Clone, Copy)]
pub enum BlockItem {
    Report(Report),
    Skipped(usize),
}

// Checks 6 and 7 at a block, by its type. The two cases stay apart: where every block of type 12 is one branch, the
// next place does not wait for the length that was read.
#[tactic(auto, unfolding(crate::specs::Answers::block_is, crate::specs::Report::block_check))]
pub fn block_at(d: &[u8], at: usize, stop: usize) -> Result<Block, RefusalNumber>
    ensures { result ≡ block_is d.now stop at }
{
    if d.len() < stop || stop.saturating_sub(at) < 4 {
        return Err(RefusalNumber::BlockPastEnd);
    }
    let words = usize::from(read16(d, at + 2));
    let bytes = 4 * (words + 1);
    if stop < at + bytes {
        return Err(RefusalNumber::BlockPastEnd);
    }
    let kind = d[at];
    match kind {
        12 => idms_block(words, d[at + 1] / 16),
        0..=11 | 13..=255 => Ok(Block::Skipped(bytes)),
    }
}

// The report in the block at a place.
#[tactic(auto, unfolding(crate::specs::Report::report_at))]
fn read_report(d: &[u8], sender: u32, at: usize) -> Report
    requires { at + 32 ≤ length d.now }
    ensures { result ≡ report_at d.now sender at }
{
    let p = d[at + 1] % 2 == 1;
    Report {
        sender,
        payload_type: d[at + 4] / 2,
        p,
        group: read32(d, at + 8),
        media: read32(d, at + 12),
        received: read64(d, at + 16),
        rtp: read32(d, at + 24),
        presented: presented(p, read32(d, at + 28)),
    }
}

// The report at a place, where the datagram has its 32 bytes.
#[tactic(auto, unfolding(crate::specs::Answers::report_is))]
pub fn report_at(d: &[u8], sender: u32, at: usize) -> Option<Report>
    ensures { result ≡ report_is d.now sender at }
{
    if d.len().saturating_sub(at) < 32 {
        return None;
    }
    Some(read_report(d, sender, at))
}

// The report in the block at a place, once checks 6 and 7 have passed and where it gives one. `block_at` and
// `report_at` do the same in two calls, for a loop in which both are to be inlined.
#[tactic(auto, unfolding(crate::specs::Answers::block_item))]
pub fn block_item(d: &[u8], sender: u32, at: usize, stop: usize) -> Result<BlockItem, RefusalNumber>
    ensures { result ≡ block_item d.now sender stop at }
{
    match block_at(d, at, stop)? {
        Block::Skipped(bytes) => Ok(BlockItem::Skipped(bytes)),
        Block::Report => Ok(BlockItem::Report(read_report(d, sender, at))),
    }
}
