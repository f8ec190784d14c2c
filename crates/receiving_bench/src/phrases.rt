// What the answers of calls stand for.

// Of an answer's number: 0, or a refusal's.
pub(crate) fn meaning(number: u64) -> &'static str {
    match number {
        0 => "accepted",
        1 => "length 0, over 2048 or not a multiple of 4",
        2 => "a version other than 2, or a packet past the end",
        3 => "bad padding",
        4 => "the first packet is neither SR nor RR",
        5 => "a packet too short for its type",
        6 => "a block past the end of its packet",
        7 => "a report block of another length",
        8 => "no refusal has this number",
        9 => "there is no such item",
        10 => "no room for the message",
        11 => "a field out of range",
        12 => "no table bears this group or rate",
        13 => "another group or media source",
        14 => "the number is held by another origin",
        15 => "received not within 30 s before the reading",
        16 => "RTP time over 60 s of media clock old",
        17 => "presented over 30 s after received, or at 0",
        18 => "all 64 places are held",
        19 => "the number is not held",
        20 => "no member is fresh",
        21 => "not the line of a group number",
        22 => "more than ten digits or a group above 4294967294",
        23 => "more than 64 reports",
        24 => "an answer list shorter than the reports",
        25 => "bad layout of a recording",
        _ => "no answer of a call",
    }
}
