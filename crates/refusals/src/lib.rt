// The refusal numbers of document 01 and, from 21 on and of settings, document 02, each once for all code. The
// definitions give each its number (specs/Refusals.antt). There is no number 8.
#![tactic(auto)]

ghost use Rattle.std.specs.Prelude.{◌≡◌, Some, decimal};
ghost use Rattle.refusals.specs.Refusals.{refusal_number, answer_number};

use std::fmt;

#[derive(Clone, Copy, Debug, PartialEq, Eq)]
pub enum RefusalNumber {
    // Datagram length is 0, not a multiple of 4, or over 2,048.
    BadLength = 1,

    // Version is not 2, or the packet runs past the end.
    BadPacket = 2,

    // Bad padding.
    BadPadding = 3,

    // First packet is neither 200 nor 201, and reduced size was not agreed.
    BadFirst = 4,

    // Content too short for its type; for 211, not exactly 36 bytes.
    ShortContent = 5,

    // An XR block runs past the content.
    BlockPastEnd = 6,

    // Block type 12 with block length other than 7.
    BadBlockLength = 7,

    // Item index not below the item count.
    NoSuchItem = 9,

    // Buffer shorter than the message.
    ShortBuffer = 10,

    // A field to be written is out of range; of a check of settings, a slack above 1,966,080.
    OutOfRange = 11,

    // Group 0 or 4,294,967,295, or rate outside 1 to 192,000.
    BadOpening = 12,

    // Report or settings packet of another group or media source.
    OtherStream = 13,

    // Source number held by another origin.
    OtherOrigin = 14,

    // Received time not within 30 s at or before the reading.
    ReceivedFar = 15,

    // RTP age above 60 seconds of media clock.
    RtpAged = 16,

    // Presentation delay over 30 s, or expanded presentation equal to 0; of a check of settings, delay over 30 s,
    // presented 0 or a delay of 0; at a loudspeaker, presented not 0 and its delay over 30 s or 0.
    BadlyPresented = 17,

    // New member, and 64 places held.
    NoRoom = 18,

    // Farewell from a source number not held.
    NoMember = 19,

    // No fresh member to follow.
    NoneCounted = 20,

    // Not the line of a site file that carries a group number.
    BadLine = 21,

    // Such a line, but with more than ten digits or a group number above 4,294,967,294; to the writer, 4,294,967,295.
    BadGroup = 22,

    // More than 64 reports in a burst.
    LongBurst = 23,

    // Answer list shorter than the burst's reports.
    ShortAnswers = 24,

    // A recording over 65,536 bytes, with its head or its table of contents cut short, with more than 256 entries, or
    // with bodies that do not end exactly at its end.
    BadLayout = 25,

    // Step of a playout clock below 1 or over 2^57.
    BadStep = 26,

    // Current or target of a playout clock outside of plus or minus 2^57.
    OutsideRange = 27,
}

impl RefusalNumber {
    // The number of the papers' table.
    pub fn number(self) -> u64
        ensures { result ≡ refusal_number self }
    {
        self as u64
    }
}

// Prints its number, as the `u64` prints.
impl fmt::Display for RefusalNumber {
    ghost output = { λ refused. Some (decimal (refusal_number refused)) };

    fn fmt<W: fmt::Write>(&self, f: &mut fmt::Formatter<W>) -> fmt::Result {
        write!(f, "{}", self.number())
    }
}

// What a call is answered: its refusal's number, or 0 that there is none.
pub fn answer_number(checked: Result<(), RefusalNumber>) -> u64
    ensures { result ≡ answer_number checked }
{
    match checked {
        Ok(()) => 0,
        Err(refused) => refused.number(),
    }
}
