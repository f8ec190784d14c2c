// What a report or a farewell does to a table, which is a change of one place at most. Every decision is made here, on
// plain values, once the source number's place was searched for: first the call's number, then what it does. A caller
// stores that where its table lies.
ghost use Rattle.std.specs.Prelude.{◌≡◌};
ghost use Rattle.refusals.specs.Refusals.{answer_number};
ghost use Rattle.table.specs.Filing.{member_after, has_other_origin, report_number_at, report_filing};
ghost use Rattle.table.specs.Filing.{farewell_number_at, farewell_filing};

use crate::tally::raised;
use checks::report_number;
use origin::Origin;
use places::{lowest_free, with_place, without_place};
use refusals::RefusalNumber;
use register::{Member, Opening, Reading, Record};

// A call's number, which goes into C's lists as it is; the place and the member that stands there afterwards, which
// is the one from before where the call changes nothing; and the word of places held.
#[derive(Clone, Copy)]
pub struct Filing {
    pub number: u64,
    pub place: usize,
    pub held: u64,
    pub member: Member,
}

// Whether a member has another origin.
fn has_other_origin(there: Member, origin: Origin) -> bool
    ensures { result ≡ has_other_origin there origin }
{
    there.record.origin != origin
}

// The member at a source number's place after a report that got this number, or after a farewell that was refused, with
// its own record: 14 is tallied there.
fn member_after(there: Member, x: Record, number: u64) -> Member
    ensures { result ≡ member_after there x number }
{
    if number == RefusalNumber::OtherOrigin.number() {
        return Member {
            tally: raised(there.tally),
            ..there
        };
    }
    if number != 0 {
        return there;
    }
    Member { record: x, ..there }
}

// What a report is answered, by where its source number's member stands, and who stands there. The place is 64 where it
// has none, as the definition `place_of` has it, which a caller's search answers too.
pub fn report_number_at(
    opening: Opening,
    held: u64,
    place: usize,
    there: Member,
    x: Record,
    at: Reading,
) -> Result<(), RefusalNumber>
    ensures { answer_number result ≡ report_number_at opening held place there x at }
{
    if 64 <= place {
        return report_number(opening, x, at, false, lowest_free(held) == 64);
    }
    let elsewhere = has_other_origin(there, x.origin);
    report_number(opening, x, at, elsewhere, false)
}

// What a report does that got this number, by the same place, and who stands there or else at the first place. With the
// number of what `report_number_at` answers, it is at one of the 64 places.
pub fn report_filing(held: u64, place: usize, there: Member, x: Record, number: u64) -> Filing
    ensures { result ≡ report_filing held place there x number }
{
    if place < 64 {
        return Filing {
            number,
            place,
            held,
            member: member_after(there, x, number),
        };
    }
    if number != 0 {
        return Filing {
            number,
            place: 0,
            held,
            member: there,
        };
    }
    let free = lowest_free(held) as usize;
    Filing {
        number: 0,
        place: free,
        held: with_place(held, free),
        member: Member {
            record: x,
            tally: 0,
        },
    }
}

// What a farewell is answered, by its source number's place, or 64, and who stands there.
#[tactic(auto, unfolding(register::specs::Register::farewell_checks))]
pub fn farewell_number_at(place: usize, there: Member, origin: Origin) -> Result<(), RefusalNumber>
    ensures { answer_number result ≡ farewell_number_at place there origin }
{
    if 64 <= place {
        return Err(RefusalNumber::NoMember);
    }
    if has_other_origin(there, origin) {
        return Err(RefusalNumber::OtherOrigin);
    }
    Ok(())
}

// What a farewell does that got this number: a place is held no more, or 14 is tallied there.
pub fn farewell_filing(held: u64, place: usize, there: Member, number: u64) -> Filing
    ensures { result ≡ farewell_filing held place there number }
{
    if 64 <= place {
        return Filing {
            number,
            place: 0,
            held,
            member: there,
        };
    }
    if number != 0 {
        return Filing {
            number,
            place,
            held,
            member: member_after(there, there.record, number),
        };
    }
    Filing {
        number: 0,
        place,
        held: without_place(held, place),
        member: there,
    }
}
