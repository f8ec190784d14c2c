// Reads RTCP datagrams for inter-destination media synchronization (RFC 7272): how many items a datagram has, the item
// at an index, all of them as rows of numbers, and a cursor over them. Every call takes any bytes. A datagram that
// breaks a rule is refused: it has no count, no item at an index, no rows, and no cursor is opened on it. A cursor is
// for the datagram that it was opened on; nothing ties it to that one, and passed with another it gives what it can
// read there, also where that datagram is refused. `first_cursor` gives one for any datagram, for a caller that has
// counted the items.
#![tactic(auto)]

mod cursor;
mod item;
mod rows;

pub use cursor::{Cursor, first_cursor, next_item, open_datagram};
pub use datagram::count_items;
pub use item::item_at;
pub use rows::read_items;
