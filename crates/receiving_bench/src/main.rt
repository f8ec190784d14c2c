// The receiving bench: runs the scenes of a text on the member table, prints what came of each step, and compares it
// with what the text expects. The last line says how many answers were as expected.
//
// A line that starts with two spaces is a step; every other line is printed as it stands, and so is a step without an
// answer. A step that is not understood counts as an answer that was not expected. Words stand apart by one space.
//
//   table                                        a new table for group 42, media source 7, rate 90000, the reading
//                                                N = 1000 s, R = 9000000, and reduced size not agreed
//   open GROUP MEDIA RATE = NUMBER               a table, which is used from then on where the number is 0
//   reading TIME RTP                             the reading of the steps behind it
//   stream GROUP MEDIA                           the group and media source of the reports behind it
//   report SOURCE ORIGIN RECEIVED RTP PRESENTED = NUMBER
//   farewell SOURCE ORIGIN = NUMBER
//   send report .. = NUMBER                      the same by a datagram: behind an RR, read and taken in
//   send farewell .. = NUMBER
//   fill FIRST LAST = NUMBER                     each of these sources sends P1's report from 192.0.2.1, port 5000 more
//                                                than its number; the last number that is not 0, or 0
//   sweep = NUMBER
//   burst REPORTS LENGTH = NUMBER                checks a burst of so many reports with an answer list of that length:
//                                                where it is taken, its reports are those of the report and fill steps
//                                                behind it, one by one
//   check GROUP MEDIA RECEIVED RTP PRESENTED SLACK = yes | no | refused NUMBER
//                                                whether a settings packet of sender 1 suits the members
//   check own SLACK = yes | no | refused NUMBER  the same of the target's settings, written and read back
//   check item INDEX SLACK = yes | no | refused NUMBER
//                                                the same of the settings at an index of the datagram
//   datagram HEX..                               the datagram of the steps behind it
//   recording HEX..                              the bytes of a recording, which the steps behind it replay
//   append HEX..                                 bytes behind those of the recording
//   cut BYTES                                    leaves out so many bytes at the recording's end
//   reduced size agreed                          what the steps behind it that read a datagram are told
//   reduced size not agreed
//   take ORIGIN = NUMBER.. | none | refused NUMBER PLACE
//   items = COUNT | refused NUMBER PLACE
//   item INDEX = report SOURCE | settings SOURCE | farewell SOURCE | refused NUMBER PLACE
//   choose = SOURCE RECEIVED RTP PRESENTED COUNTED | refused NUMBER
//   lateness = N                                 of the target, N x 2^32, at a rate of 90000
//   age = TIME                                   of the target's received time
//   delay = TIME                                 of the target
//   members = COUNT
//   place INDEX = SOURCE ORIGIN | free
//   tally INDEX = COUNT | none                   of the member at that place
//   unchanged                                    members, their tallies and the target are as before the last call
//   unchanged but tally INDEX = COUNT            the same, but for the tally at that place, which is COUNT
//   write report = HEX..                         the last report, as the writer writes it
//   write settings SENDER = HEX..                the target's settings, as the writer writes them
//   line TEXT = GROUP | refused NUMBER           reads the line of a site file
//   write line GROUP = TEXT | refused NUMBER     the line of that group number, as the writer writes it
//   replay = COUNT | refused NUMBER              runs the recording through a table of its own: how many entries it has
//   replay entry INDEX = ITEMS ACCEPTED NUMBER   what the entry at an index gave in such a run
//   replay target = SOURCE PRESENTED | none      the choice at the end of such a run
//
// A number is decimal, or hex behind 0x, and has 32 bits. A TIME is SECONDS or SECONDS+UNITS, in units of 2^-32 s; so
// are RECEIVED and PRESENTED of a target and of settings. A report's PRESENTED is the field. - as PRESENTED is P 0, or
// arrival mode. SLACK is in units of 2^-16 s. An ORIGIN is ADDRESS:PORT, the address four decimal numbers with dots or
// 32 hex digits. HEX is eight hex digits. A datagram that is taken in has at most seven answers, and a recording at most
// 4096 bytes. A TEXT stands in double quotes and has at most 128 characters; in it \r is CR and \n is LF, every other
// character stands for itself, and none is a double quote.
#![tactic(auto)]

mod calls;
mod datagrams;
mod forms;
mod group_lines;
mod items;
mod lines;
mod looks;
mod measures;
mod numbers;
mod phrases;
mod print;
mod quotes;
mod recordings;
mod scene;
mod settings;
mod words;

use crate::calls::{Told, call, take_datagram};
use crate::forms::{Form, matched};
use crate::group_lines::line_step;
use crate::items::look_at_items;
use crate::lines::Line;
use crate::looks::{look, unchanged};
use crate::print::print_came;
use crate::recordings::{Recording, replay_step};
use crate::scene::{Scene, first_record, usual};
use crate::settings::check_settings;
use input::read_full;
use register::{Opening, Record};
use std::io;
use table::Table;

// How many answers were compared, and how many of them were as expected.
#[derive(Clone, Copy)]
struct Score {
    compared: u64,
    expected: u64,
}

// What the steps of the text have come to.
#[derive(Clone, Copy)]
struct Bench<'a> {
    table: Table,
    // The table before the last call. A new table is none, nor is a setting of the scene.
    earlier: Table,
    scene: Scene<'a>,
    // The last report that a step told.
    record: Record,
    recording: Recording,
    score: Score,
}

// A table for the papers' group, media source and rate.
fn usual_table() -> Table {
    let opening = Opening {
        group: 42,
        media: 7,
        rate: 90000,
    };
    Table::open(opening).table
}

impl Score {
    // The score with an answer more.
    fn with(self, is_expected: bool) -> Score {
        Score {
            compared: self.compared.wrapping_add(1),
            expected: self.expected.wrapping_add(u64::from(is_expected)),
        }
    }
}

impl<'a> Bench<'a> {
    fn new() -> Bench<'a> {
        let table = usual_table();
        Bench {
            table,
            earlier: table,
            scene: usual(&[]),
            record: first_record(0),
            recording: Recording::EMPTY,
            score: Score {
                compared: 0,
                expected: 0,
            },
        }
    }

    // Makes a step, and gives its line with what came. Only where the table may change is it handed on.
    fn make(&mut self, line: Line<'a>) -> Line<'a> {
        let told = match line.form {
            Form::Open
            | Form::Report
            | Form::Farewell
            | Form::SendReport
            | Form::SendFarewell
            | Form::Fill
            | Form::Sweep
            | Form::Burst => call(self.table, line, self.scene),
            Form::Check(packet, _) => check_settings(self.table, line, packet, self.scene),
            Form::Take | Form::TakeNone | Form::TakeRefused => take_datagram(
                self.table, line, self.scene,
            ),
            Form::Table => Told {
                table: usual_table(),
                line,
            },
            _ => return self.looked(line),
        };
        if line.form.is_call() {
            self.earlier = self.table;
        }
        self.table = told.table;
        told.line
    }

    // The line with what came of a step that leaves the table as it is.
    fn looked(&self, line: Line<'a>) -> Line<'a> {
        match line.form {
            Form::Reading
            | Form::Stream
            | Form::Datagram
            | Form::Recording
            | Form::Append
            | Form::Cut
            | Form::ReducedSize
            | Form::NoReducedSize => line,
            Form::Items
            | Form::ItemsRefused
            | Form::ItemReport
            | Form::ItemSettings
            | Form::ItemFarewell
            | Form::ItemRefused => look_at_items(line, self.scene),
            Form::Unchanged | Form::UnchangedBut => unchanged(
                self.table,
                self.earlier,
                line,
                self.scene,
            ),
            Form::ReadLine | Form::ReadLineRefused | Form::WriteLine | Form::WriteLineRefused =>
                line_step(line),
            Form::Replay
            | Form::ReplayRefused
            | Form::ReplayEntry
            | Form::ReplayTarget
            | Form::ReplayNoTarget => replay_step(line, &self.recording),
            _ => look(&self.table, line, self.scene, self.record),
        }
    }

    // What there is behind a step, beside the table, whose answer came so.
    fn settle(&mut self, line: Line<'a>, came: Line<'a>) {
        if matches!(line.form, Form::Report | Form::SendReport) {
            self.record = self.scene.record_of(line);
        }
        self.scene = self.scene.behind(came);
        self.recording.step(line);
    }

    // Runs a step, and prints what came and whether it is what the text expects. Without an answer the step is printed
    // as it stands.
    fn run_step(&mut self, rt: &impl Print, line: Line<'a>, text: &[u8]) -> io::Result<()> {
        let came = self.make(line);
        if line.form.sentence().is_empty() {
            print_as_it_stands(rt, text)?;
        } else {
            let is_expected = came == line;
            print_came(rt, came)?;
            println!(rt;
                "{}",
                if is_expected {
                    " (as expected)"
                } else {
                    " (NOT as expected)"
                }
            )?;
            self.score = self.score.with(is_expected);
        }
        self.settle(line, came);
        Ok(())
    }

    // Runs a line of the text, with its line feed, if it has one. Without it, it has no step's form.
    fn run_line(
        &mut self,
        rt: &impl Print,
        number: usize,
        text: &'a [u8],
        behind: &'a [u8],
    ) -> io::Result<()> {
        let Some(step) = text.strip_prefix(b"  ") else {
            return print_as_it_stands(rt, text);
        };
        match step
            .strip_suffix(b"\n")
            .and_then(|step| matched(step, behind))
        {
            Some(line) => self.run_step(rt, line, text),
            None => {
                self.score = self.score.with(false);
                println!(rt; "line {number}: not understood")
            }
        }
    }
}

fn print_as_it_stands(rt: &impl Print, text: &[u8]) -> io::Result<()> {
    rt.write_all(text.strip_suffix(b"\n").unwrap_or(text))?;
    println!(rt)
}

fn run(rt: &impl Print, text: &[u8]) -> io::Result<()> {
    let mut bench = Bench::new();
    let mut rest = text;
    for (number, line) in (1..).zip(text.split_inclusive(|c| *c == b'\n')) {
        rest = rest.get(line.len()..).unwrap_or(&[]);
        bench.run_line(rt, number, line, rest)?;
    }
    let Score { compared, expected } = bench.score;
    println!(rt; "receiving bench: {expected} of {compared} as expected")
}

fn main(rt: HostRuntime) -> io::Result<()> {
    let mut text = [0u8; 65536];
    let n = read_full(&mut rt.reader(), &mut text)?;
    run(&rt, &text[..n])
}
