// What the steps of the text hold to, beside the table.
use crate::forms::Form;
use crate::lines::Line;
use crate::numbers::mapped;
use origin::Origin;
use register::{Reading, Record, ReportFields};

// What the table was opened for, the reading, the group and media source of reports, the datagram's words of hex, and
// whether reduced size was agreed.
#[derive(Clone, Copy)]
pub(crate) struct Scene<'a> {
    pub group: u32,
    pub media: u32,
    pub reading: Reading,
    pub report_group: u32,
    pub report_media: u32,
    pub datagram: &'a [u8],
    pub reduced: bool,
}

// P1's report, of a source at its port of 192.0.2.1.
pub(crate) fn first_record(source: u32) -> Record {
    Record {
        source,
        origin: Origin {
            address: mapped([192, 0, 2, 1]),
            port: (5000 + source % 60000) as u16,
        },
        report: ReportFields {
            received: 999 << 32,
            group: 42,
            media: 7,
            rtp: 8910000,
            presented: 0x03E78000,
            payload_type: 33,
            p: 1,
        },
    }
}

// The papers' table and reading, where reduced size was not agreed.
pub(crate) fn usual(datagram: &[u8]) -> Scene<'_> {
    Scene {
        group: 42,
        media: 7,
        reading: Reading {
            ntp: 1000 << 32,
            rtp: 9000000,
        },
        report_group: 42,
        report_media: 7,
        datagram,
        reduced: false,
    }
}

impl<'a> Scene<'a> {
    // The report of a step, in the scene's stream, with payload type 33.
    pub(crate) fn record_of(self, line: Line) -> Record {
        Record {
            source: line.value32(0),
            origin: line.origin,
            report: ReportFields {
                received: line.values[1],
                group: self.report_group,
                media: self.report_media,
                rtp: line.value32(2),
                presented: line.value32(3),
                payload_type: 33,
                p: (line.values[3] >> 32 & 0xff) as u8,
            },
        }
    }

    // The scene behind a step, whose line has the answer that came.
    pub(crate) fn behind(self, line: Line<'a>) -> Scene<'a> {
        match line.form {
            Form::Table => usual(self.datagram),
            Form::Reading => Scene {
                reading: Reading {
                    ntp: line.values[0],
                    rtp: line.value32(1),
                },
                ..self
            },
            Form::Stream => Scene {
                report_group: line.value32(0),
                report_media: line.value32(1),
                ..self
            },
            Form::Datagram => Scene {
                datagram: line.text,
                ..self
            },
            Form::ReducedSize => Scene {
                reduced: true,
                ..self
            },
            Form::NoReducedSize => Scene {
                reduced: false,
                ..self
            },
            // Refused, there is no other table.
            Form::Open if line.values[3] == 0 => Scene {
                group: line.value32(0),
                media: line.value32(1),
                report_group: line.value32(0),
                report_media: line.value32(1),
                ..self
            },
            _ => self,
        }
    }
}
