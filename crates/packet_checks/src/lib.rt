// The checks of a packet on plain values: where padding may be and how much (3), which packet types may come first (4),
// the types with their least content (5), and the length and role of an IDMS block (7), with its presented time.
#![tactic(auto)]

mod block;
mod kind;
mod padding;

pub use block::{Block, idms_block, presented};
pub use kind::{PacketType, is_bad_first, is_short, kind_of};
pub use padding::{is_bad_count, is_misplaced};
