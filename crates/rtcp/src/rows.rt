// All items of a datagram in a lent array of numbers, a row an item. The datagram is checked and counted first; the
// second pass fills.
ghost use Rattle.std.specs.Prelude.{◌≡◌, true, ◌+◌, ◌-◌, ◌*◌, ◌%◌, ◌≤◌, length};
ghost use Rattle.std.proofs.Math.Seq.{paste};
ghost use Rattle.idms.specs.Rows.{row_of};
ghost use Rattle.packet.specs.Checks.{passed};
ghost use Rattle.packet.specs.Contents.{contents, readable};
ghost use Rattle.datagram.specs.Datagram.{source_items, blocks_check, blocks_items, parts_check, packet_items};
ghost use Rattle.datagram.specs.Datagram.{datagram_check, datagram_items};
ghost use Rattle.rtcp.specs.Rows.{put, HasRoom, ArePut, behind, rows_answer, rows_after};

use datagram::count_items;
use idms::{Item, Placed, Refusal};
use packet::{Packet, block_at, packet_at, report_at, settings_at, source_at};
use packet_checks::Block;
use refusals::RefusalNumber;

// Puts an item's row at a cell.
fn put_row(rows: &mut [u64], at: usize, x: Placed)
    requires { at + 10 ≤ length rows.old }
    ensures { rows.new ≡ paste rows.old at (row_of x) 10 }
{
    rows[at..at + 10].copy_from_slice(&idms::row(x));
}

// Puts a row for each source from a place up to a stop, and answers the cell behind them.
fn fill_sources(d: &[u8], rows: &mut [u64], at: usize, from: usize, stop: usize) -> usize
    requires { (stop ≤ length d.now) × ((stop - from) % 4 ≡ 0)
        × HasRoom rows.old at (source_items d.now stop from) }
    ensures { ArePut rows.old at (source_items d.now stop from) result rows.new }
{
    let mut cell = at;
    for place in (from..stop).step_by(4) {
        // `stop` lies in the datagram, and whole words are left.
        let item = Item::Farewell(source_at(d, place, stop).unwrap());
        put_row(rows, cell, Placed { place, item });
        cell += 10;
    }
    cell
}

// Puts a row for each report of the blocks from a place up to a stop, which have passed, and answers the cell behind
// them.
fn fill_blocks(
    d: &[u8],
    rows: &mut [u64],
    at: usize,
    sender: u32,
    from: usize,
    stop: usize,
) -> usize
    requires { (blocks_check d.now stop from ≡ passed)
        × HasRoom rows.old at (blocks_items d.now sender stop from) }
    ensures { ArePut rows.old at (blocks_items d.now sender stop from) result
        rows.new }
{
    let mut place = from;
    let mut cell = at;
    while place < stop {
        // The blocks have passed, so each lies in the datagram.
        match block_at(d, place, stop).unwrap() {
            Block::Skipped(bytes) => {
                place += bytes;
            }
            Block::Report => {
                let item = Item::Report(report_at(d, sender, place).unwrap());
                put_row(rows, cell, Placed { place, item });
                cell += 10;
                place += 32;
            }
        }
    }
    cell
}

// Puts the rows of the packet at p, which is readable and holds x, whose parts have passed, and answers the cell behind
// them.
fn fill_packet(d: &[u8], rows: &mut [u64], at: usize, p: usize, x: Packet) -> usize
    requires { (x ≡ contents d.now p) × (readable d.now p ≡ true) × (parts_check d.now x ≡ passed)
        × HasRoom rows.old at (packet_items d.now p) }
    ensures { ArePut rows.old at (packet_items d.now p) result rows.new }
{
    match x {
        Packet::Unread(_) => at,
        Packet::Sources(first, stop, _) => fill_sources(d, rows, at, first, stop),
        Packet::Blocks(sender, first, stop, _) => fill_blocks(d, rows, at, sender, first, stop),
        Packet::Settings(_) => {
            // The packet is readable, so they are there.
            let item = Item::Settings(settings_at(d, p).unwrap());
            put_row(rows, at, Placed { place: p, item });
            at + 10
        }
    }
}

// The place of the packet behind.
fn next_place(x: Packet) -> usize
    ensures { result ≡ behind x }
{
    match x {
        Packet::Unread(next)
        | Packet::Sources(_, _, next)
        | Packet::Blocks(_, _, _, next)
        | Packet::Settings(next) => next,
    }
}

// Puts the rows of a datagram's n items at the front, and walks no further than the last of them. The datagram passes
// every check but perhaps 4, which looks at no item.
fn fill_rows(d: &[u8], rows: &mut [u64], n: usize)
    requires { (datagram_check true d.now ≡ passed)
        × (n ≡ length (datagram_items d.now)) × (10 * n ≤ length rows.old) }
    ensures { rows.new ≡ put rows.old 0 (datagram_items d.now) }
{
    let end = 10 * n;
    let mut p: usize = 0;
    let mut cell: usize = 0;
    while cell < end {
        // The packets have passed, so each is readable.
        let x = packet_at(d, p).unwrap();
        cell = fill_packet(d, rows, cell, p, x);
        p = next_place(x);
    }
}

// Checks first and fills then: after any refusal, or where the array is too short, it is as before. `reduced` says
// whether reduced size was agreed.
pub fn read_items(d: &[u8], reduced: bool, rows: &mut [u64]) -> Result<usize, Refusal>
    ensures { (result ≡ rows_answer reduced d.now rows.old)
        × (rows.new ≡ rows_after reduced d.now rows.old) }
{
    let n = count_items(d, reduced)?;
    if rows.len() < 10 * n {
        return Err(Refusal {
            number: RefusalNumber::ShortBuffer,
            place: 0,
        });
    }
    fill_rows(d, rows, n);
    Ok(n)
}
