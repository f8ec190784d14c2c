// The items of inter-destination media synchronization (RFC 7272), as every other crate sees them: what a report, a
// settings packet and a farewell hold, and each as a row of numbers.
#![tactic(auto)]

ghost use Rattle.std.specs.Prelude.{◌≡◌, ◌≤◌};
ghost use Rattle.idms.specs.Rows.{row_of, columns_of, field_of};

use refusals::RefusalNumber;

// An IDMS report block (RFC 7272 section 6) with the SSRC of the XR packet's sender. The reader gives `presented` 0
// where `p` is false; the type does not say so, and the writer refuses any other value there.
#[derive(Clone, Copy)]
pub struct Report {
    pub sender: u32,
    pub payload_type: u8,
    pub p: bool,
    pub group: u32,
    pub media: u32,
    pub received: u64,
    pub rtp: u32,
    pub presented: u32,
}

// An IDMS settings packet (RFC 7272 section 7). `presented` 0 means empty.
#[repr(C)]
#[derive(Clone, Copy)]
pub struct Settings {
    pub sender: u32,
    pub media: u32,
    pub group: u32,
    pub received: u64,
    pub rtp: u32,
    pub presented: u64,
}

// A report, a settings packet, or one source of a BYE packet: document 01's farewell.
#[derive(Clone, Copy)]
pub enum Item {
    Report(Report),
    Settings(Settings),
    Farewell(u32),
}

// An item and the byte of the datagram at which its block, packet or source starts.
#[derive(Clone, Copy)]
pub struct Placed {
    pub place: usize,
    pub item: Item,
}

// A refusal's number and its byte place: that of a packet for 2 to 5, of a block for 6 and 7, and 0 for the others.
#[derive(Clone, Copy)]
pub struct Refusal {
    pub number: RefusalNumber,
    pub place: usize,
}

// An item as ten numbers: kind, place, then its fields. A column that the item does not have holds 0.
pub fn row(p: Placed) -> [u64; 10]
    ensures { result ≡ row_of p }
{
    let place = p.place as u64;
    let item = p.item;
    match item {
        Item::Report(r) => [
            1,
            place,
            r.sender as u64,
            r.group as u64,
            r.media as u64,
            r.received,
            r.rtp as u64,
            r.presented as u64,
            r.payload_type as u64,
            r.p as u64,
        ],
        Item::Settings(s) => [
            2,
            place,
            s.sender as u64,
            s.group as u64,
            s.media as u64,
            s.received,
            s.rtp as u64,
            s.presented,
            0,
            0,
        ],
        Item::Farewell(source) => [3, place, source as u64, 0, 0, 0, 0, 0, 0, 0],
    }
}

// The columns that an item has: a report all ten, the settings the first eight, a farewell the first three.
fn columns(item: Item) -> u64
    ensures { (result ≡ columns_of item) × (result ≤ 10) }
{
    match item {
        Item::Report(_) => 10,
        Item::Settings(_) => 8,
        Item::Farewell(_) => 3,
    }
}

// The field that a row has at a column, where the item has it.
#[tactic(auto, unfolding(crate::specs::Rows::field_of))]
pub fn field_at(p: Placed, number: u64) -> Option<u64>
    ensures { result ≡ field_of p number }
{
    let item = p.item;
    if columns(item) <= number {
        return None;
    }
    let cells = row(p);
    Some(cells[number as usize])
}
