// One packet of an RTCP datagram: its header with checks 2 to 5, what it holds by its type, and the blocks of an XR
// packet with checks 6 and 7. Every call takes any bytes and any place; where the datagram does not have the bytes that
// are to be read, the answer says so.
#![tactic(auto)]

mod block;
mod bytes;
mod contents;
mod header;
mod settings;

pub use block::{BlockItem, block_at, block_item, report_at};
pub use bytes::source_at;
pub use contents::{Packet, packet_at};
pub use header::{Head, head_at};
pub use settings::settings_at;
