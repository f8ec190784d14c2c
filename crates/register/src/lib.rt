// What a member table and the plain register are told, what a table holds of a member, and what choosing answers.
#![tactic(auto)]

use origin::Origin;

// What a register starts for: a group, a media source and a clock rate.
#[repr(C)]
#[derive(Clone, Copy)]
pub struct Opening {
    pub group: u32,
    pub media: u32,
    pub rate: u32,
}

// A report as it stands in a row: the fields of a report item but its sender, who is the record's source. `p` is a
// number so that a host in C need not vet it: any value but 0 is P 1.
#[repr(C)]
#[derive(Clone, Copy)]
pub struct ReportFields {
    pub received: u64,
    pub group: u32,
    pub media: u32,
    pub rtp: u32,
    pub presented: u32,
    pub payload_type: u8,
    pub p: u8,
}

// A report with its source number and its origin: what the table is told.
#[repr(C)]
#[derive(Clone, Copy)]
pub struct Record {
    pub source: u32,
    pub origin: Origin,
    pub report: ReportFields,
}

// Where a tally stops.
pub const TALLY_LIMIT: u32 = 4294967295;

// A member: its number, its origin and its last accepted report, and its tally: how many times its number was refused
// with 14, by report or farewell, since it last joined, up to TALLY_LIMIT.
#[repr(C)]
#[derive(Clone, Copy)]
pub struct Member {
    pub record: Record,
    pub tally: u32,
}

// A sender's reading of both clocks: NTP time N and RTP time R.
#[repr(C)]
#[derive(Clone, Copy)]
pub struct Reading {
    pub ntp: u64,
    pub rtp: u32,
}

// The member to follow: its number, the settings fields from its own report, and how many members were counted.
// `presented` is 0 in arrival mode.
#[repr(C)]
#[derive(Clone, Copy)]
pub struct Target {
    pub source: u32,
    pub group: u32,
    pub media: u32,
    pub received: u64,
    pub rtp: u32,
    pub presented: u64,
    pub counted: u32,
}
