// A cursor over the items of the datagram that it was opened on.
ghost use Rattle.std.specs.Prelude.{◌≡◌, true};
ghost use Rattle.std.specs.List.{slice_get};
ghost use Rattle.packet.specs.Checks.{passed};
ghost use Rattle.datagram.specs.Datagram.{datagram_check, datagram_items};
ghost use Rattle.rtcp.specs.Cursor.{advance, next_of, start};
ghost use Rattle.rtcp.specs.Answers.{cursor_on};

use datagram::count_items;
use idms::{Item, Placed, Refusal};
use packet::{BlockItem, Packet, block_item, packet_at, settings_at, source_at};

// Where a walk over a datagram stands. Only `open_datagram`, `first_cursor` and `next_item` make one.
#[derive(Clone, Copy)]
pub struct Cursor {
    state: State,
}

#[derive(Clone, Copy)]
pub(crate) enum State {
    // Before the packet at a place.
    Packet(usize),
    // Among the sources of a BYE packet: the next one, where they stop, and the packet behind.
    Sources(usize, usize, usize),
    // Among the blocks of an XR packet: its sender, the next block, where they stop, and the packet behind.
    Blocks(u32, usize, usize, usize),
}

// One step of a cursor that is not at the end: past an item, or past something that gives none.
#[derive(Clone, Copy)]
pub(crate) enum Advance {
    Item(Placed, State),
    Onward(State),
}

// A step at a packet, by what it holds.
fn at_packet(d: &[u8], p: usize) -> Option<Advance>
    ensures { result ≡ advance d.now (State.Packet p) }
{
    Some(match packet_at(d, p)? {
        Packet::Unread(next) => Advance::Onward(State::Packet(next)),
        Packet::Sources(first, stop, next) => Advance::Onward(State::Sources(first, stop, next)),
        Packet::Blocks(sender, first, stop, next) => {
            Advance::Onward(State::Blocks(sender, first, stop, next))
        }
        Packet::Settings(next) => {
            // Always there: the packet is readable.
            let item = Item::Settings(settings_at(d, p)?);
            Advance::Item(Placed { place: p, item }, State::Packet(next))
        }
    })
}

// A step at a source.
fn at_source(d: &[u8], at: usize, stop: usize, next: usize) -> Option<Advance>
    ensures { result ≡ advance d.now (State.Sources at stop next) }
{
    if stop <= at {
        return Some(Advance::Onward(State::Packet(next)));
    }
    let item = Item::Farewell(source_at(d, at, stop)?);
    Some(Advance::Item(
        Placed { place: at, item },
        State::Sources(at + 4, stop, next),
    ))
}

// A step at a block.
fn at_block(d: &[u8], sender: u32, at: usize, stop: usize, next: usize) -> Option<Advance>
    ensures { result ≡ advance d.now (State.Blocks sender at stop next) }
{
    if stop <= at {
        return Some(Advance::Onward(State::Packet(next)));
    }
    match block_item(d, sender, at, stop) {
        Err(_) => None,
        Ok(BlockItem::Skipped(bytes)) => {
            Some(Advance::Onward(State::Blocks(sender, at + bytes, stop, next)))
        }
        Ok(BlockItem::Report(r)) => {
            let item = Item::Report(r);
            Some(Advance::Item(
                Placed { place: at, item },
                State::Blocks(sender, at + 32, stop, next),
            ))
        }
    }
}

// One step of a cursor. Built into `next_item`, for the reason there.
#[inline(always)]
fn stepped(d: &[u8], c: State) -> Option<Advance>
    ensures { result ≡ advance d.now c }
{
    match c {
        State::Packet(p) => at_packet(d, p),
        State::Sources(at, stop, next) => at_source(d, at, stop, next),
        State::Blocks(sender, at, stop, next) => at_block(d, sender, at, stop, next),
    }
}

// The next item of the datagram that the cursor was opened on and the cursor behind it, or the end. With another
// datagram it gives what can be read there, which may be an item of one that is refused: not all checks are made again.
// So it need not be told whether reduced size was agreed: what depends on that was checked when the cursor was opened,
// or the items were counted. It is built into its callers, so that a loop has its cursor in registers: through memory
// it would be read again at once, in other widths than it was written, which stalls.
#[inline(always)]
pub fn next_item(d: &[u8], from: Cursor) -> Option<(Placed, Cursor)>
    ensures { result ≡ next_of d.now from }
{
    let mut c = from.state;
    loop {
        match stepped(d, c)? {
            Advance::Item(x, next) => {
                return Some((x, Cursor { state: next }));
            }
            Advance::Onward(next) => {
                c = next;
            }
        }
    }
}

// A cursor before the first item of any datagram, where `open_datagram` puts its own: for a caller that has counted the
// items. With a datagram that is refused it gives what it can read.
pub fn first_cursor() -> Cursor
    ensures { result ≡ start }
{
    Cursor {
        state: State::Packet(0),
    }
}

// Checks a datagram, and puts a cursor before its first item. `reduced` says whether reduced size was agreed.
pub fn open_datagram(d: &[u8], reduced: bool) -> Result<(usize, Cursor), Refusal>
    ensures { result ≡ cursor_on reduced d.now }
{
    let items = count_items(d, reduced)?;
    Ok((items, first_cursor()))
}

// The item at an index, where there are so many, of a datagram that passes every check but perhaps 4, which looks at no
// item.
pub(crate) fn nth_item(d: &[u8], index: usize) -> Option<Placed>
    requires { datagram_check true d.now ≡ passed }
    ensures { result ≡ slice_get (datagram_items d.now) index }
{
    let mut c = first_cursor();
    for _ in 0..index {
        let (_, next) = next_item(d, c)?;
        c = next;
    }
    let (x, _) = next_item(d, c)?;
    Some(x)
}
