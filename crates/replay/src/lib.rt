// Runs a site recording through a member table: each entry's datagram in turn, under its own origin and reading, with a
// row of numbers for what it gave, and then the choice at the last entry's reading.
#![tactic(auto)]

mod layout;
mod steps;

ghost use Rattle.std.specs.Prelude.{◌≡◌, false, ◌++◌, ◌*◌, ◌≤◌, ◌<◌, length, drop, replicate};
ghost use Rattle.table.specs.Members.{sources_of};
ghost use Rattle.replay.specs.Recording.{entry_count, entries_in, is_bad_layout};
ghost use Rattle.replay.specs.Replay.{entry_row_length, entry_rows, choice_at_end, replayed, replayed_rows};

use idms::Item;
pub use layout::{ENTRY_LIMIT, RECORDING_LIMIT};
use layout::{entry_at, entry_place, is_bad_layout, read32};
use refusals::{RefusalNumber, answer_number};
use register::{Opening, Target};
use steps::{count_entry, first_row, next_of, put_row, row_after};
use table::{
    Table, farewell_filing, farewell_number_at, place_among, record_of, report_filing,
    report_number_at,
};

// What a replay gives: how many entries there are, and the choice at the last one's reading.
#[derive(Clone, Copy)]
pub struct Replayed {
    pub entries: usize,
    pub choice: Result<Target, RefusalNumber>,
}

// How many numbers an entry's row has.
pub const ENTRY_ROW: usize = 3;

// Every item of every entry into the table, in order, and each entry's row to its place; then the choice. It is one
// loop, and searches a list of the members' source numbers, so that the table stays where it lies: parts that were handed
// the table by value took several times as long.
#[tactic(auto, using(crate::proofs::Laws::Layout::good_layout))]
fn run_entries(t: Table, f: &[u8], n: usize, rows: &mut [u64]) -> Result<Target, RefusalNumber>
    requires { (sources_of t.members ≡ replicate 64 0) × (is_bad_layout f.now ≡ false) × (n ≡ entry_count f.now)
        × (0 < n) × (entry_row_length * n ≤ length rows.old) }
    ensures { (result ≡ choice_at_end t (entries_in f.now))
        × (rows.new
        ≡ entry_rows t (entries_in f.now) ++ drop (entry_row_length * n) rows.old) }
{
    let mut table = t;
    // A table just opened has source number 0 at every place.
    let mut sources = [0u32; 64];
    let mut i: usize = 0;
    let mut entry = entry_at(f, entry_place(0), entry_place(n));
    let first = count_entry(f, entry);
    let mut left = first.unwrap_or(0);
    let mut row = first_row(first);
    let mut step = None;
    loop {
        step = next_of(f, entry, left, step);
        match step {
            Some((x, _)) => {
                let origin = entry.origin;
                left -= 1;
                match x.item {
                    Item::Report(report) => {
                        let record = record_of(report, origin);
                        let found = place_among(table.held, &sources, record.source);
                        // Where no member was found, the first place, as the filings ask.
                        let there = table.members[found % 64];
                        let checked = report_number_at(
                            table.opening,
                            table.held,
                            found,
                            there,
                            record,
                            entry.at,
                        );
                        let number = answer_number(checked);
                        let filing = report_filing(table.held, found, there, record, number);
                        sources[filing.place] = filing.member.record.source;
                        table.members[filing.place] = filing.member;
                        table.held = filing.held;
                        row = row_after(row, number);
                    }
                    Item::Farewell(source) => {
                        let found = place_among(table.held, &sources, source);
                        let there = table.members[found % 64];
                        let checked = farewell_number_at(found, there, origin);
                        let number = answer_number(checked);
                        let filing = farewell_filing(table.held, found, there, number);
                        table.members[filing.place] = filing.member;
                        table.held = filing.held;
                        row = row_after(row, number);
                    }
                    Item::Settings(_) => {}
                }
            }
            None => {
                put_row(rows, ENTRY_ROW * i, row);
                i += 1;
                if i == n {
                    return table.choose(entry.at).choice;
                }
                entry = entry_at(f, entry_place(i), entry.end);
                let count = count_entry(f, entry);
                left = count.unwrap_or(0);
                row = first_row(count);
            }
        }
    }
}

// Runs a recording through a table that is opened for its head, with a row for each entry, and chooses at the last
// one's reading. Refused with 25, then 12, then 10, it changes nothing.
#[tactic(auto, using(crate::proofs::Laws::Layout::good_layout))]
pub fn replay(f: &[u8], rows: &mut [u64]) -> Result<Replayed, RefusalNumber>
    ensures value { result ≡ replayed f.now rows.old }
    ensures rows_after { rows.new ≡ replayed_rows f.now rows.old }
{
    if is_bad_layout(f) {
        return Err(RefusalNumber::BadLayout);
    }
    let n = read32(f, 0) as usize;
    let opened = Table::open(Opening {
        group: read32(f, 4),
        media: read32(f, 8),
        rate: read32(f, 12),
    });
    // `Table::open` answers C's struct, and refuses with 12 alone.
    if opened.number != 0 {
        return Err(RefusalNumber::BadOpening);
    }
    if rows.len() < ENTRY_ROW * n {
        return Err(RefusalNumber::ShortBuffer);
    }
    if n == 0 {
        return Ok(Replayed {
            entries: 0,
            choice: Err(RefusalNumber::NoneCounted),
        });
    }
    Ok(Replayed {
        entries: n,
        choice: run_entries(opened.table, f, n, rows),
    })
}
