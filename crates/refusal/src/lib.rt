// Why a call was refused: a case for each number of docs/RULES.md, section 9.
#![tactic(auto)]

ghost use Rattle.std.specs.Prelude.{◌≡◌};
ghost use Rattle.refusal.specs.Refusal.{number_of, refusal_of, paper_numbered};

#[derive(Clone, Copy, Debug, PartialEq, Eq)]
pub enum Refusal {
    // A lent length or a count in the state that was handed in is out of its range.
    Inadmissible = 1,
    // A segment's header and the CRC24 that follows it disagree.
    HeaderCheckDiffers = 2,
    // A long header says that the payload was compressed.
    PayloadCompressed = 3,
    // A segment is longer than the lent segment buffer.
    SegmentTooLong = 4,
    // A segment's payload and the CRC32 that follows it disagree.
    PayloadCheckDiffers = 5,
    // A self-contained segment came while an envelope was still in pieces.
    UnexpectedSelfContained = 6,
    // The pieces of an envelope are longer than the lent reassembly buffer.
    ReassemblyTooShort = 7,
    // A length that has to count bytes is below zero.
    NegativeLength = 8,
    // An envelope's version is none of 3, 4 and 5.
    UnknownVersion = 9,
    // An envelope's opcode stands for no message.
    UnknownOpcode = 10,
    // A body ends before its tracing id does.
    TracingIdCutShort = 11,
    // A notation runs past the end of the bytes that it stands in.
    PastEnd = 12,
    // A text is not UTF-8.
    NotUtf8 = 13,
    // What was to be written is longer than the room in the output.
    OutputTooShort = 14,
    // The fields given stand for no bytes.
    NotWritable = 15,
    // An envelope does not fit behind what the segment already holds.
    EnvelopeDoesNotFit = 16,
    // A piece was asked of a segment that already holds something.
    SegmentNotEmpty = 17,
}

impl Refusal {
    // The number that stands for this refusal wherever only a number can.
    pub fn number(self) -> u8
        ensures { result ≡ number_of self }
    {
        self as u8
    }
}

// The way back from a number.
#[tactic(auto, unfolding(crate::specs::Refusal::refusal_of))]
pub fn of_number(n: usize) -> Option<Refusal>
    ensures { paper_numbered result ≡ refusal_of n }
{
    match n {
        1 => Some(Refusal::Inadmissible),
        2 => Some(Refusal::HeaderCheckDiffers),
        3 => Some(Refusal::PayloadCompressed),
        4 => Some(Refusal::SegmentTooLong),
        5 => Some(Refusal::PayloadCheckDiffers),
        6 => Some(Refusal::UnexpectedSelfContained),
        7 => Some(Refusal::ReassemblyTooShort),
        8 => Some(Refusal::NegativeLength),
        9 => Some(Refusal::UnknownVersion),
        10 => Some(Refusal::UnknownOpcode),
        11 => Some(Refusal::TracingIdCutShort),
        12 => Some(Refusal::PastEnd),
        13 => Some(Refusal::NotUtf8),
        14 => Some(Refusal::OutputTooShort),
        15 => Some(Refusal::NotWritable),
        16 => Some(Refusal::EnvelopeDoesNotFit),
        17 => Some(Refusal::SegmentNotEmpty),
        _ => None,
    }
}
