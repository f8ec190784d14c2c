// Takes whole datagrams into a member table: every report and every farewell in it is a call, in the order of items.
#![tactic(auto)]

ghost use Rattle.std.specs.Prelude.{◌≡◌, ◌+◌, ◌≤◌, length};
ghost use Rattle.std.proofs.lemmas.List.Edits.{sets};
ghost use Rattle.rtcp.specs.Cursor.{given};
ghost use Rattle.table.specs.History.{table_from};
ghost use Rattle.table.specs.Numbers.{numbers_into};
ghost use Rattle.intake.specs.Datagrams.{datagram_answered, answers_after};
ghost use Rattle.intake.specs.Steps.{calls_of_item, call_count, given_calls, numbers_of};

use idms::Item;
use origin::Origin;
use refusals::RefusalNumber;
use register::Reading;
use rtcp::{Cursor, next_item, open_datagram};
use table::Table;

// A refusal's number and byte place, or 0 and 0; how many calls there were; and the table afterwards: for C, which
// has no Result.
#[repr(C)]
#[derive(Clone, Copy)]
pub struct DatagramAnswered {
    pub number: u64,
    pub place: u64,
    pub count: u64,
    pub table: Table,
}

// How many calls an item is.
fn calls_of(item: Item) -> usize
    ensures { (result ≡ calls_of_item item) × (result ≤ 1) }
{
    match item {
        Item::Report(_) | Item::Farewell(_) => 1,
        Item::Settings(_) => 0,
    }
}

// How many calls the next n items are.
fn count_calls(d: &[u8], n: usize, from: Cursor) -> usize
    ensures { result ≡ call_count (given n d.now from) }
{
    let mut cursor = from;
    let mut calls: usize = 0;
    for _ in 0..n {
        let Some((x, next)) = next_item(d, cursor) else {
            return calls;
        };
        calls += calls_of(x.item);
        cursor = next;
    }
    calls
}

// Puts an outcome's number, if it has one, at a place, and answers the place behind.
fn put_number(answers: &mut [u64], at: usize, outcome: Option<u64>) -> usize
    requires { at + length (numbers_of outcome) ≤ length answers.old }
    ensures value { result ≡ at + length (numbers_of outcome) }
    ensures answers_after { answers.new ≡ sets answers.old at (numbers_of outcome) }
{
    let Some(number) = outcome else {
        return at;
    };
    answers[at] = number;
    at + 1
}

// Each of the next n items into the table, and the numbers of its calls to the front of the list.
fn make_calls(
    t: Table,
    d: &[u8],
    n: usize,
    from: Cursor,
    origin: Origin,
    at: Reading,
    answers: &mut [u64],
) -> Table
    requires { length (given_calls n d.now from origin at) ≤ length answers.old }
    ensures value { result ≡ table_from t (given_calls n d.now from origin at) }
    ensures answers_after { answers.new
        ≡ numbers_into t (given_calls n d.now from origin at) answers.old }
{
    let mut table = t;
    let mut cursor = from;
    let mut place: usize = 0;
    for _ in 0..n {
        let Some((x, next)) = next_item(d, cursor) else {
            return table;
        };
        let taken = table.intake(x.item, origin, at);
        place = put_number(answers, place, taken.outcome);
        table = taken.table;
        cursor = next;
    }
    table
}

// Checks and counts first: after any refusal, or where the list is shorter than the calls, all is as before. `reduced`
// says whether reduced size was agreed.
pub fn take_datagram(
    t: Table,
    d: &[u8],
    reduced: bool,
    origin: Origin,
    at: Reading,
    answers: &mut [u64],
) -> DatagramAnswered
    ensures value { result ≡ datagram_answered t reduced d.now origin at answers.old }
    ensures answers_after { answers.new ≡ answers_after t reduced d.now origin at answers.old }
{
    match open_datagram(d, reduced) {
        Err(r) => DatagramAnswered {
            number: r.number.number(),
            place: r.place as u64,
            count: 0,
            table: t,
        },
        Ok((n, cursor)) => {
            let calls = count_calls(d, n, cursor);
            if answers.len() < calls {
                return DatagramAnswered {
                    number: RefusalNumber::ShortBuffer.number(),
                    place: 0,
                    count: 0,
                    table: t,
                };
            }
            DatagramAnswered {
                number: 0,
                place: 0,
                count: calls as u64,
                table: make_calls(t, d, n, cursor, origin, at, answers),
            }
        }
    }
}
