// Runs the cases of tests/cases.txt, which tools/check-cases makes into records, and prints each with what the reader
// answers.
//
// A record, its numbers big-endian:
//   1 byte    the length of the case's name
//             the name
//   1 byte    1 where reduced size was agreed, 0 where it was not
//   1 byte    1 where the case asks for the item at an index, 0 where it asks for all items
//   8 bytes   the index, or 0
//   2 bytes   the length of the datagram
//             the datagram
ghost use Rattle.std.specs.Prelude.{IfSome, ◌<◌, length};

use crate::print::{print_datagram, print_found};
use std::io;

#[derive(Clone, Copy)]
struct Case<'a> {
    // It need not be text.
    name: &'a [u8],
    reduced: bool,
    // Of the item that the case asks for; otherwise it asks for all.
    index: Option<u64>,
    datagram: &'a [u8],
}

// The case whose record is at the front, and what is behind the record. There is none where the record is cut off.
fn take_case(records: &[u8]) -> Option<(Case<'_>, &[u8])>
    ensures { IfSome result (λ taken. length taken.1.now < length records.now) }
{
    let (name_length, rest) = records.split_first()?;
    let (name, rest) = rest.split_at_checked(*name_length as usize)?;
    let ([reduced, indexed], rest) = rest.split_first_chunk::<2>()?;
    let (index, rest) = rest.split_first_chunk()?;
    let (datagram_length, rest) = rest.split_first_chunk()?;
    let length = u16::from_be_bytes(*datagram_length) as usize;
    let (datagram, rest) = rest.split_at_checked(length)?;
    let case = Case {
        name,
        reduced: *reduced == 1,
        index: (*indexed != 0).then_some(u64::from_be_bytes(*index)),
        datagram,
    };
    Some((case, rest))
}

fn run_case(rt: &impl Print, case: Case) -> io::Result<()> {
    let reduced = case.reduced;
    rt.write_all(b"case ")?;
    rt.write_all(case.name)?;
    println!(rt)?;
    println!(rt;
        "reduced size {}",
        if reduced { "agreed" } else { "not agreed" }
    )?;
    let Some(index) = case.index else {
        return print_datagram(rt, case.datagram, reduced);
    };
    println!(rt; "index {index}")?;
    print_found(rt, rtcp::item_at(case.datagram, reduced, index as usize))
}

// Runs every case in turn.
pub(crate) fn run_cases(rt: &impl Print, records: &[u8]) -> io::Result<()> {
    let mut rest = records;
    while !rest.is_empty() {
        let Some((case, behind)) = take_case(rest) else {
            return println!(rt; "record cut off");
        };
        run_case(rt, case)?;
        rest = behind;
    }
    Ok(())
}
