// What stands for nothing: a member of zeros, a place without a member, a table without members.
ghost use Rattle.std.specs.Prelude.{◌≡◌};
ghost use Rattle.table.specs.Members.{vacant, empty_table};

use crate::{Place, Table};
use origin::Origin;
use register::{Member, Opening, Record, ReportFields};

// A member of zeros.
const VACANT: Member = Member {
    record: Record {
        source: 0,
        origin: Origin {
            address: [0; 16],
            port: 0,
        },
        report: ReportFields {
            received: 0,
            group: 0,
            media: 0,
            rtp: 0,
            presented: 0,
            payload_type: 0,
            p: 0,
        },
    },
    tally: 0,
};

// No member.
pub(crate) fn free_place() -> Place
    ensures { result ≡ record { held = 0; member = vacant } }
{
    Place {
        held: 0,
        member: VACANT,
    }
}

// A table without members.
#[tactic(auto, unfolding(crate::specs::Members::empty_table))]
pub(crate) fn empty_table(opening: Opening) -> Table
    ensures { result ≡ empty_table opening }
{
    Table {
        opening,
        held: 0,
        members: [VACANT; 64],
    }
}
