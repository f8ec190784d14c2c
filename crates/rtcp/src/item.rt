// The item at an index.
ghost use Rattle.std.specs.Prelude.{◌≡◌};
ghost use Rattle.rtcp.specs.Answers.{item_of};

use crate::cursor::nth_item;
use datagram::count_items;
use idms::{Placed, Refusal};
use refusals::RefusalNumber;

// The item at an index from 0, or the datagram's refusal, or 9 where there is no such item. `reduced` says whether
// reduced size was agreed. It passes over the datagram twice.
pub fn item_at(d: &[u8], reduced: bool, index: usize) -> Result<Placed, Refusal>
    ensures { result ≡ item_of reduced d.now index }
{
    if count_items(d, reduced)? <= index {
        return Err(Refusal {
            number: RefusalNumber::NoSuchItem,
            place: 0,
        });
    }
    Ok(nth_item(d, index).unwrap())
}
