// The forms that a step can have: how the text writes one, and the sentence that says what came of it.
use crate::lines::{Line, matched_with};

// Which settings packet a step checks: one that it tells, the target's own, or an item of the datagram.
#[derive(Clone, Copy, PartialEq, Eq)]
pub(crate) enum Packet {
    Told,
    Own,
    Item,
}

#[derive(Clone, Copy, PartialEq, Eq)]
pub(crate) enum Verdict {
    Yes,
    No,
    Refused,
}

#[derive(Clone, Copy, PartialEq, Eq)]
pub(crate) enum Form {
    Table,
    Reading,
    Stream,
    Datagram,
    Recording,
    Append,
    Cut,
    ReducedSize,
    NoReducedSize,
    Open,
    Report,
    Farewell,
    SendReport,
    SendFarewell,
    Fill,
    Sweep,
    Burst,
    Check(Packet, Verdict),
    Take,
    TakeNone,
    TakeRefused,
    Items,
    ItemsRefused,
    ItemReport,
    ItemSettings,
    ItemFarewell,
    ItemRefused,
    Choose,
    ChooseRefused,
    Lateness,
    Age,
    Delay,
    Members,
    Place,
    PlaceFree,
    Tally,
    TallyNone,
    Unchanged,
    UnchangedBut,
    WriteReport,
    WriteSettings,
    ReadLine,
    ReadLineRefused,
    WriteLine,
    WriteLineRefused,
    Replay,
    ReplayRefused,
    ReplayEntry,
    ReplayTarget,
    ReplayNoTarget,
}

// A form with its pattern and its sentence.
//
// In a pattern # is a number, @ a time, % an origin, ? a report's presented field, ! a target's presented time,
// & answers of calls, * words of hex, " a text; all else stands for itself.
//
// In a sentence $ and two characters stand for a value of the line: how it is printed, and which one. A step whose form
// has none is printed as it stands.
#[derive(Clone, Copy)]
pub(crate) struct Step {
    pub form: Form,
    pub pattern: &'static str,
    pub sentence: &'static str,
}

static STEPS: [Step; 58] = [
    Step {
        form: Form::Table,
        pattern: "table",
        sentence: "",
    },
    Step {
        form: Form::Reading,
        pattern: "reading @ #",
        sentence: "",
    },
    Step {
        form: Form::Stream,
        pattern: "stream # #",
        sentence: "",
    },
    Step {
        form: Form::Datagram,
        pattern: "datagram*",
        sentence: "",
    },
    Step {
        form: Form::Recording,
        pattern: "recording*",
        sentence: "",
    },
    Step {
        form: Form::Append,
        pattern: "append*",
        sentence: "",
    },
    Step {
        form: Form::Cut,
        pattern: "cut #",
        sentence: "",
    },
    Step {
        form: Form::ReducedSize,
        pattern: "reduced size agreed",
        sentence: "",
    },
    Step {
        form: Form::NoReducedSize,
        pattern: "reduced size not agreed",
        sentence: "",
    },
    Step {
        form: Form::Open,
        pattern: "open # # # = #",
        sentence: "  group $n0, media source $n1, rate $n2: $a3",
    },
    Step {
        form: Form::Report,
        pattern: "report # % @ # ? = #",
        sentence: "  report of source $n0 from $o0: $a4",
    },
    Step {
        form: Form::Farewell,
        pattern: "farewell # % = #",
        sentence: "  farewell of source $n0 from $o0: $a1",
    },
    Step {
        form: Form::SendReport,
        pattern: "send report # % @ # ? = #",
        sentence: "  report of source $n0 from $o0: $a4",
    },
    Step {
        form: Form::SendFarewell,
        pattern: "send farewell # % = #",
        sentence: "  farewell of source $n0 from $o0: $a1",
    },
    Step {
        form: Form::Fill,
        pattern: "fill # # = #",
        sentence: "  reports of sources $n0 to $n1: $a2",
    },
    Step {
        form: Form::Sweep,
        pattern: "sweep = #",
        sentence: "  sweep: $a0",
    },
    Step {
        form: Form::Burst,
        pattern: "burst # # = #",
        sentence: "  burst of $n0 reports, a list of $n1 numbers: $a2",
    },
    Step {
        form: Form::Check(Packet::Told, Verdict::Yes),
        pattern: "check # # @ # @ # = yes",
        sentence: "  settings of group $n0, media source $n1, received $e2, RTP $n3, presented $e4, slack $n5: yes",
    },
    Step {
        form: Form::Check(Packet::Told, Verdict::No),
        pattern: "check # # @ # @ # = no",
        sentence: "  settings of group $n0, media source $n1, received $e2, RTP $n3, presented $e4, slack $n5: no",
    },
    Step {
        form: Form::Check(Packet::Told, Verdict::Refused),
        pattern: "check # # @ # @ # = refused #",
        sentence: "  settings of group $n0, media source $n1, received $e2, RTP $n3, presented $e4, slack $n5: $a6",
    },
    Step {
        form: Form::Check(Packet::Own, Verdict::Yes),
        pattern: "check own # = yes",
        sentence: "  our own settings, slack $n0: yes",
    },
    Step {
        form: Form::Check(Packet::Own, Verdict::No),
        pattern: "check own # = no",
        sentence: "  our own settings, slack $n0: no",
    },
    Step {
        form: Form::Check(Packet::Own, Verdict::Refused),
        pattern: "check own # = refused #",
        sentence: "  our own settings, slack $n0: $a1",
    },
    Step {
        form: Form::Check(Packet::Item, Verdict::Yes),
        pattern: "check item # # = yes",
        sentence: "  settings at item $n0, slack $n1: yes",
    },
    Step {
        form: Form::Check(Packet::Item, Verdict::No),
        pattern: "check item # # = no",
        sentence: "  settings at item $n0, slack $n1: no",
    },
    Step {
        form: Form::Check(Packet::Item, Verdict::Refused),
        pattern: "check item # # = refused #",
        sentence: "  settings at item $n0, slack $n1: $a2",
    },
    Step {
        form: Form::Take,
        pattern: "take % =&",
        sentence: "  datagram from $o0: $l0",
    },
    Step {
        form: Form::TakeNone,
        pattern: "take % = none",
        sentence: "  datagram from $o0: no report and no farewell",
    },
    Step {
        form: Form::TakeRefused,
        pattern: "take % = refused # #",
        sentence: "  datagram from $o0: $a0, at byte $n1",
    },
    Step {
        form: Form::Items,
        pattern: "items = #",
        sentence: "  items: $n0",
    },
    Step {
        form: Form::ItemsRefused,
        pattern: "items = refused # #",
        sentence: "  items: $a0, at byte $n1",
    },
    Step {
        form: Form::ItemReport,
        pattern: "item # = report #",
        sentence: "  item $n0: report of source $n1",
    },
    Step {
        form: Form::ItemSettings,
        pattern: "item # = settings #",
        sentence: "  item $n0: settings of source $n1",
    },
    Step {
        form: Form::ItemFarewell,
        pattern: "item # = farewell #",
        sentence: "  item $n0: farewell of source $n1",
    },
    Step {
        form: Form::ItemRefused,
        pattern: "item # = refused # #",
        sentence: "  item $n0: $a1, at byte $n2",
    },
    Step {
        form: Form::Choose,
        pattern: "choose = # @ # ! #",
        sentence: "  target: source $n0, received $t1, RTP $n2, $p3, $n4 counted",
    },
    Step {
        form: Form::ChooseRefused,
        pattern: "choose = refused #",
        sentence: "  target: $a0",
    },
    Step {
        form: Form::Lateness,
        pattern: "lateness = @",
        sentence: "  lateness of the target: $h0 x 2^32",
    },
    Step {
        form: Form::Age,
        pattern: "age = @",
        sentence: "  NTP age of the target: $t0",
    },
    Step {
        form: Form::Delay,
        pattern: "delay = @",
        sentence: "  delay of the target: $d0",
    },
    Step {
        form: Form::Members,
        pattern: "members = #",
        sentence: "  members: $n0",
    },
    Step {
        form: Form::Place,
        pattern: "place # = # %",
        sentence: "  place $n0: source $n1 of $o0",
    },
    Step {
        form: Form::PlaceFree,
        pattern: "place # = free",
        sentence: "  place $n0: free",
    },
    Step {
        form: Form::Tally,
        pattern: "tally # = #",
        sentence: "  place $n0: tally $n1, calls refused with 14 under its member's number since it joined",
    },
    Step {
        form: Form::TallyNone,
        pattern: "tally # = none",
        sentence: "  place $n0: no member, and no tally",
    },
    Step {
        form: Form::Unchanged,
        pattern: "unchanged",
        sentence: "    members $u0, target $u1",
    },
    Step {
        form: Form::UnchangedBut,
        pattern: "unchanged but tally # = #",
        sentence: "    members $u2, target $u3, but the tally of place $n0: $n1",
    },
    Step {
        form: Form::WriteReport,
        pattern: "write report =*",
        sentence: "  last report as written: $b0",
    },
    Step {
        form: Form::WriteSettings,
        pattern: "write settings # =*",
        sentence: "  settings written from the target: $b1",
    },
    Step {
        form: Form::ReadLine,
        pattern: "line \" = #",
        sentence: "  line $q0: group $n0",
    },
    Step {
        form: Form::ReadLineRefused,
        pattern: "line \" = refused #",
        sentence: "  line $q0: $a0",
    },
    Step {
        form: Form::WriteLine,
        pattern: "write line # = \"",
        sentence: "  line of group $n0: $w0",
    },
    Step {
        form: Form::WriteLineRefused,
        pattern: "write line # = refused #",
        sentence: "  line of group $n0: $a1",
    },
    Step {
        form: Form::Replay,
        pattern: "replay = #",
        sentence: "  replay: $n0 entries",
    },
    Step {
        form: Form::ReplayRefused,
        pattern: "replay = refused #",
        sentence: "  replay: $a0",
    },
    Step {
        form: Form::ReplayEntry,
        pattern: "replay entry # = # # #",
        sentence: "  entry $n0 of the replay: items $n1, accepted $n2, first refusal number $n3",
    },
    Step {
        form: Form::ReplayTarget,
        pattern: "replay target = # !",
        sentence: "  target of the replay: source $n0, $p1",
    },
    Step {
        form: Form::ReplayNoTarget,
        pattern: "replay target = none",
        sentence: "  target of the replay: none",
    },
];

impl Form {
    // What the text says of this form.
    pub(crate) fn sentence(self) -> &'static str {
        STEPS
            .iter()
            .find(|step| step.form == self)
            .map_or("", |step| step.sentence)
    }

    // Whether a step of this form calls the table that is in use, which is then the one before the last call.
    pub(crate) fn is_call(self) -> bool {
        matches!(
            self,
            Form::Report
                | Form::Farewell
                | Form::SendReport
                | Form::SendFarewell
                | Form::Fill
                | Form::Sweep
                | Form::Burst
                | Form::Check(_, _)
                | Form::Take
                | Form::TakeNone
                | Form::TakeRefused
        )
    }
}

// The step that a line tells behind its two spaces, in the first of the forms that it has.
pub(crate) fn matched<'a>(text: &'a [u8], behind: &'a [u8]) -> Option<Line<'a>> {
    STEPS
        .iter()
        .find_map(|step| matched_with(step, text, behind))
}
