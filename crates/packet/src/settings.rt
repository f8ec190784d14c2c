// The IDMS settings packet.
ghost use Rattle.std.specs.Prelude.{◌≡◌, ◌+◌, ◌≤◌, length};
ghost use Rattle.packet.specs.Settings.{settings_at};
ghost use Rattle.packet.specs.Answers.{settings_is};

use crate::bytes::{read32, read64};
use idms::Settings;

// The settings in the packet at p. The media source precedes the group here.
#[tactic(auto, unfolding(crate::specs::Settings::settings_at))]
fn read_settings(d: &[u8], p: usize) -> Settings
    requires { p + 36 ≤ length d.now }
    ensures { result ≡ settings_at d.now p }
{
    Settings {
        sender: read32(d, p + 4),
        media: read32(d, p + 8),
        group: read32(d, p + 12),
        received: read64(d, p + 16),
        rtp: read32(d, p + 24),
        presented: read64(d, p + 28),
    }
}

// The settings at a place, where the datagram has their 36 bytes.
#[tactic(auto, unfolding(crate::specs::Answers::settings_is))]
pub fn settings_at(d: &[u8], p: usize) -> Option<Settings>
    ensures { result ≡ settings_is d.now p }
{
    if d.len().saturating_sub(p) < 36 {
        return None;
    }
    Some(read_settings(d, p))
}
