// The IDMS report block: check 7, and the presented time.
ghost use Rattle.std.specs.Prelude.{◌≡◌};
ghost use Rattle.packet_checks.specs.IdmsBlock.{idms_block, presented_if};

use refusals::RefusalNumber;

// What is found at a block: a report, in the 32 bytes that check 7 has seen to; or a block that gives no item, with its
// bytes.
#[derive(Clone, Copy)]
pub enum Block {
    Report,
    Skipped(usize),
}

// Check 7 at a block of type 12, whatever its role. It gives an item with role 1, and none with role 0 or 2 to 15.
pub fn idms_block(words: usize, role: u8) -> Result<Block, RefusalNumber>
    ensures { result ≡ idms_block words role }
{
    if words != 7 {
        return Err(RefusalNumber::BadBlockLength);
    }
    match role {
        1 => Ok(Block::Report),
        0 | 2..=255 => Ok(Block::Skipped(32)),
    }
}

// The presented time, which is not looked at where P is 0.
pub fn presented(p: bool, field: u32) -> u32
    ensures { result ≡ presented_if p field }
{
    if p { field } else { 0 }
}
