// An entry's datagram, item by item, and the entry's row as far as its items were taken.
ghost use Rattle.std.specs.Prelude.{◌≡◌, ◌+◌, ◌≤◌, ◌<◌, length, false};
ghost use Rattle.std.proofs.lemmas.List.Edits.{sets};
ghost use Rattle.datagram.specs.Answers.{item_count};
ghost use Rattle.replay.specs.Replay.{entry_row_length};
ghost use Rattle.replay.specs.Steps.{datagram_of, cursor_behind, next_in, first_row, row_after, cells_of};

use crate::layout::Listed;
use idms::{Placed, Refusal};
use rtcp::{Cursor, count_items, first_cursor, next_item};

// How many items there are, how many of those so far were accepted, and the first refusal so far, or 0: numbers, as
// they go into the lent rows.
#[derive(Clone, Copy)]
pub(crate) struct Row {
    items: u64,
    accepted: u64,
    number: u64,
}

// How many items an entry's datagram has, or its refusal. Reduced size is off.
pub(crate) fn count_entry(f: &[u8], entry: Listed) -> Result<usize, Refusal>
    requires { (entry.body ≤ entry.end) × (entry.end ≤ length f.now) }
    ensures { result ≡ item_count false (datagram_of f.now entry) }
{
    count_items(&f[entry.body..entry.end], false)
}

// The next item of an entry's datagram, of which so many are left. The step before says where it starts; before an
// entry's first item there is none.
#[tactic(auto, unfolding(crate::specs::Steps::next_in))]
pub(crate) fn next_of(
    f: &[u8],
    entry: Listed,
    left: usize,
    before: Option<(Placed, Cursor)>,
) -> Option<(Placed, Cursor)>
    requires { (entry.body ≤ entry.end) × (entry.end ≤ length f.now) }
    ensures { result ≡ next_in (datagram_of f.now entry) left (cursor_behind before) }
{
    if left == 0 {
        return None;
    }
    let cursor = match before {
        Some((_, cursor)) => cursor,
        None => first_cursor(),
    };
    next_item(&f[entry.body..entry.end], cursor)
}

// The row before the first item.
#[tactic(auto, unfolding(crate::specs::Steps::first_row))]
pub(crate) fn first_row(count: Result<usize, Refusal>) -> Row
    ensures { result ≡ first_row count }
{
    match count {
        Ok(n) => Row {
            items: n as u64,
            accepted: 0,
            number: 0,
        },
        Err(r) => Row {
            items: 0,
            accepted: 0,
            number: r.number.number(),
        },
    }
}

// The row behind a call that gets a number. A datagram has fewer items than 512.
#[tactic(auto, unfolding(crate::specs::Steps::row_after))]
pub(crate) fn row_after(row: Row, number: u64) -> Row
    requires { row.accepted < 512 }
    ensures { result ≡ row_after row number }
{
    if number == 0 {
        return Row {
            accepted: row.accepted + 1,
            ..row
        };
    }
    if row.number == 0 {
        return Row { number, ..row };
    }
    row
}

// Puts a row at a place.
pub(crate) fn put_row(rows: &mut [u64], at: usize, row: Row)
    requires { at + entry_row_length ≤ length rows.old }
    ensures { rows.new ≡ sets rows.old at (cells_of row) }
{
    rows[at..at + 3].copy_from_slice(&[row.items, row.accepted, row.number]);
}
