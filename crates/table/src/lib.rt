// The member table of one synchronization group: 64 places, and one word that marks those held.
#![tactic(auto)]

mod empty;
mod filing;
mod search;
mod tally;

ghost use Rattle.std.specs.Prelude.{◌<◌, ◌≡◌, Some};
ghost use Rattle.register.specs.Register.{Call};
ghost use Rattle.table.specs.Members.{member_count, place_at, place_in};
ghost use Rattle.table.specs.Calls.{opened, answered};
ghost use Rattle.table.specs.Filing.{filing_of, with_filing};
ghost use Rattle.table.specs.Choose.{chosen_of};
ghost use Rattle.table.specs.Intake.{record_of, taken};
ghost use Rattle.table.specs.SettingsCheck.{settings_checked};

use checks::is_refused_opening;
use choosing::{choice_at, marks_at, verdict_at};
use empty::{empty_table, free_place};
use filing::Filing;
pub use filing::{farewell_filing, farewell_number_at, report_filing, report_number_at};
use idms::{Item, Report, Settings};
use origin::Origin;
use places::{count_held, is_held};
use refusals::{RefusalNumber, answer_number};
use register::{Member, Opening, Reading, Record, ReportFields, Target};
use search::is_held_by;
pub use search::place_among;

// A table for one group, media source and clock rate. The lowest bit of `held` marks the first place. The fields are
// public so that a caller can store a filing in the table where it lies; every call answers every value that they have.
#[repr(C)]
#[derive(Clone, Copy)]
pub struct Table {
    pub opening: Opening,
    pub held: u64,
    pub members: [Member; 64],
}

// A refusal's number, or 0 that there is none, and the table afterwards: for C, which has no Result.
#[repr(C)]
#[derive(Clone, Copy)]
pub struct Answered {
    pub number: u64,
    pub table: Table,
}

// What choosing answers, and the table as it was: every call hands the table on.
#[derive(Clone, Copy)]
pub struct Chosen {
    pub choice: Result<Target, RefusalNumber>,
    pub table: Table,
}

// Whether a settings packet suits the members, and the table as it was.
#[derive(Clone, Copy)]
pub struct SettingsChecked {
    pub verdict: Result<bool, RefusalNumber>,
    pub table: Table,
}

// The member at a place: `held` is 1 and `member` the member, or `held` is 0 and `member` all zeros: for C, which has
// no Option.
#[repr(C)]
#[derive(Clone, Copy)]
pub struct Place {
    pub held: u32,
    pub member: Member,
}

// What became of an item, and the table afterwards. A report or a farewell is a call, and has its number, 0 where that
// was accepted; another item is passed by, and has none.
#[derive(Clone, Copy)]
pub struct Taken {
    pub outcome: Option<u64>,
    pub table: Table,
}

// The number of a call, as an item's outcome.
fn numbered(a: Answered) -> Taken
    ensures { result ≡ record { outcome = Some a.number; table = a.table } }
{
    Taken {
        outcome: Some(a.number),
        table: a.table,
    }
}

// A report item under its origin. Its source number is the sender's.
pub fn record_of(r: Report, origin: Origin) -> Record
    ensures { result ≡ record_of r origin }
{
    Record {
        source: r.sender,
        origin,
        report: ReportFields {
            received: r.received,
            group: r.group,
            media: r.media,
            rtp: r.rtp,
            presented: r.presented,
            payload_type: r.payload_type,
            p: r.p as u8,
        },
    }
}

impl Table {
    // A table for a group, a media source and a clock rate. Refused with 12, the table is `no_table`.
    #[tactic(auto, unfolding(crate::specs::Calls::opened))]
    pub fn open(opening: Opening) -> Answered
        ensures { result ≡ opened opening }
    {
        if is_refused_opening(opening) {
            return Answered {
                number: RefusalNumber::BadOpening.number(),
                table: empty_table(Opening {
                    group: 0,
                    media: 0,
                    rate: 0,
                }),
            };
        }
        Answered {
            number: 0,
            table: empty_table(opening),
        }
    }

    // The place of the member with a source number, or 64 where none has it. The loop is that of `place_among`: one
    // search for both, over an iterator of numbers, would be longer than the two.
    fn place_of(&self, source: u32) -> usize
        ensures { result ≡ place_in self.now source }
    {
        let mut word = self.held;
        for (place, member) in self.members.iter().enumerate() {
            if is_held_by(word, member.record.source, source) {
                return place;
            }
            word /= 2;
        }
        64
    }

    // What a filing says is stored.
    fn store(&mut self, f: Filing)
        requires { f.place < 64 }
        ensures { self.new ≡ with_filing self.old f }
    {
        self.members[f.place] = f.member;
        self.held = f.held;
    }

    // What a report does, at the sender's reading.
    pub fn filing(&self, x: Record, at: Reading) -> Filing
        ensures { (result ≡ filing_of self.now x at) × (result.place < 64) }
    {
        let place = self.place_of(x.source);
        // Where no member was found, the first place.
        let there = self.members[place % 64];
        let checked = report_number_at(self.opening, self.held, place, there, x, at);
        report_filing(self.held, place, there, x, answer_number(checked))
    }

    // A report under its origin, at the sender's reading.
    #[tactic(auto, using(crate::proofs::Laws::Filing::filing_answers))]
    pub fn report(mut self, x: Record, at: Reading) -> Answered
        ensures { result ≡ answered self (Call.report x at) }
    {
        let f = self.filing(x, at);
        self.store(f);
        Answered {
            number: f.number,
            table: self,
        }
    }

    // A farewell, which is a BYE source, under its origin. The member is removed if that origin holds the number.
    pub fn farewell(mut self, source: u32, origin: Origin) -> Answered
        ensures { result ≡ answered self (Call.farewell source origin) }
    {
        let place = self.place_of(source);
        let there = self.members[place % 64];
        let checked = farewell_number_at(place, there, origin);
        let f = farewell_filing(self.held, place, there, answer_number(checked));
        self.store(f);
        Answered {
            number: f.number,
            table: self,
        }
    }

    // Every member that is not fresh at the reading is removed. A sweep is never refused.
    #[tactic(auto, unfolding(crate::specs::Calls::number_of, crate::specs::Calls::answered))]
    pub fn sweep(mut self, at: Reading) -> Answered
        ensures { result ≡ answered self (Call.sweep at) }
    {
        let marks = marks_at(self.held, self.members, self.opening.rate, at);
        self.held = marks.fresh;
        Answered {
            number: 0,
            table: self,
        }
    }

    // The target at the reading, or 20 where no member is fresh.
    #[tactic(auto, unfolding(crate::specs::Choose::choice_of))]
    pub fn choose(self, at: Reading) -> Chosen
        ensures { result ≡ chosen_of self at }
    {
        Chosen {
            choice: choice_at(self.held, self.members, self.opening.rate, at),
            table: self,
        }
    }

    // Whether a settings packet, another maker's, suits the counted members at the reading, with a slack in units of
    // 2^-16 s.
    #[tactic(auto, unfolding(crate::specs::SettingsCheck::verdict_on))]
    pub fn check_settings(self, s: Settings, at: Reading, slack: u32) -> SettingsChecked
        ensures { result ≡ settings_checked self s at slack }
    {
        SettingsChecked {
            verdict: verdict_at(self.opening, self.held, self.members, s, at, slack),
            table: self,
        }
    }

    // How many members there are.
    #[tactic(auto, unfolding(crate::specs::Members::member_count))]
    pub fn count_members(self) -> u32
        ensures { result ≡ member_count self }
    {
        count_held(self.held)
    }

    // The member at a place, if there is one.
    #[tactic(auto, unfolding(crate::specs::Members::place_at))]
    pub fn member_at(self, place: usize) -> Place
        ensures { result ≡ place_at self place }
    {
        if !is_held(self.held, place) {
            return free_place();
        }
        Place {
            held: 1,
            member: self.members[place],
        }
    }

    // An item under its origin and reading: a report or a farewell is a call, other items are passed by.
    #[tactic(auto, unfolding(crate::specs::Intake::taken))]
    pub fn intake(self, item: Item, origin: Origin, at: Reading) -> Taken
        ensures { result ≡ taken self item origin at }
    {
        let Item::Report(report) = item else {
            let Item::Farewell(source) = item else {
                return Taken {
                    outcome: None,
                    table: self,
                };
            };
            return numbered(self.farewell(source, origin));
        };
        numbered(self.report(record_of(report, origin), at))
    }
}
