// The stream reader: a value that goes into each call and comes back changed, over two lent buffers. One answer a call.
// `specs/Paper.antt` says what each case of a state or an answer means.
#![tactic(auto)]

ghost use Rattle.std.specs.Prelude.{◌≡◌};
ghost use Rattle.types.specs.Paper.{place_of};
ghost use Rattle.segment.specs.Paper.{paper_form};
ghost use Rattle.frame_decoder.specs.Reader.{keeping, in_phase, fresh, bytes_at, counts_of, in_range, held};
ghost use Rattle.frame_decoder.specs.Call.{call};
ghost use Rattle.frame_decoder.specs.Paper.{paper_phase, paper_reader, paper_buffer, paper_heard, paper_step};

use frame::Envelope;
use refusal::Refusal;
use segment::Form;
use types::Place;

mod admit;
mod settle;
mod work;

// How long the lent buffers may be.
pub const MIN_SEGMENT_LEN: usize = 12;

pub const MAX_SEGMENT_LEN: usize = 131_083;

pub const MIN_REASSEMBLY_LEN: usize = 9;

pub const MAX_REASSEMBLY_LEN: usize = 1_048_576;

// Whether buffers of these lengths may be lent.
#[tactic(auto, unfolding(crate::specs::Reader::in_range))]
pub fn in_range(segment_len: usize, reassembly_len: usize) -> bool
    ensures { result ≡ in_range segment_len reassembly_len }
{
    (MIN_SEGMENT_LEN..=MAX_SEGMENT_LEN).contains(&segment_len)
        && (MIN_REASSEMBLY_LEN..=MAX_REASSEMBLY_LEN).contains(&reassembly_len)
}

// What a reader is about.
#[derive(Clone, Copy, Debug, PartialEq, Eq)]
pub enum Phase {
    // So many bytes of a header are there.
    Header {
        filled: usize,
    },
    // Its header has passed, and so many bytes of the segment are there.
    Rest {
        filled: usize,
        len: usize,
        self_contained: bool,
    },
    // Envelopes of a self-contained payload are handed on; the bytes before at are read.
    InSegment {
        len: usize,
        at: usize,
    },
    // Envelopes of the pending bytes are handed on; the bytes before at are read.
    InReassembly {
        at: usize,
    },
    Stopped(Refusal),
}

// The form, the lengths of the two buffers that it was made for, how many bytes are pending, and the phase. Plain data: a forged one has its answer too.
#[derive(Clone, Copy, Debug, PartialEq, Eq)]
pub struct FrameDecoder {
    pub form: Form,
    pub segment_len: usize,
    pub reassembly_len: usize,
    pub pending: usize,
    pub phase: Phase,
}

#[derive(Clone, Copy, Debug, PartialEq, Eq)]
pub enum Buffer {
    Segment,
    Reassembly,
}

#[derive(Clone, Copy, Debug, PartialEq, Eq)]
pub enum Answer {
    // In which buffer, where and how long, and its reading. The place stands until the next call.
    Envelope(Buffer, Place, Envelope),
    // So many bytes of a self-contained payload were dropped.
    Leftover(usize),
    More,
}

// An answer or a refusal, and how many bytes of the piece the call took.
#[derive(Clone, Copy, Debug, PartialEq, Eq)]
pub struct Heard {
    pub answer: Result<Answer, Refusal>,
    pub taken: usize,
}

#[derive(Clone, Copy, Debug, PartialEq, Eq)]
pub struct Step {
    pub reader: FrameDecoder,
    pub heard: Heard,
}

// The bytes of an envelope's place: none where it runs past the end of its buffer.
pub fn part<'a>(buffer: Buffer, segment: &'a [u8], reassembly: &'a [u8], place: Place) -> &'a [u8]
    ensures { result.now ≡ bytes_at (paper_buffer buffer) segment.now reassembly.now (place_of place) }
{
    match buffer {
        Buffer::Segment => types::part(segment, place),
        Buffer::Reassembly => types::part(reassembly, place),
    }
}

impl FrameDecoder {
    // Never refuses: each call tests the lengths.
    pub fn new(form: Form, segment_len: usize, reassembly_len: usize) -> FrameDecoder
        ensures { paper_reader result ≡ fresh (paper_form form) segment_len reassembly_len }
    {
        FrameDecoder {
            form,
            segment_len,
            reassembly_len,
            pending: 0,
            phase: Phase::Header { filled: 0 },
        }
    }

    pub(crate) fn in_phase(self, phase: Phase) -> FrameDecoder
        ensures { paper_reader result ≡ in_phase (paper_reader self) (paper_phase phase) }
    {
        FrameDecoder { phase, ..self }
    }

    fn with_pending(mut self, pending: usize) -> FrameDecoder
        ensures { paper_reader result ≡ keeping (paper_reader self) pending (paper_phase self.phase) }
    {
        self.pending = pending;
        self
    }

    pub(crate) fn kept(self, pending: usize, phase: Phase) -> FrameDecoder
        ensures { paper_reader result ≡ keeping (paper_reader self) pending (paper_phase phase) }
    {
        self.with_pending(pending).in_phase(phase)
    }

    // How many bytes of an unfinished segment are there.
    pub fn filled(self) -> usize
        ensures { result ≡ (counts_of (paper_reader self)).there }
    {
        match self.phase {
            Phase::Header { filled } | Phase::Rest { filled, .. } => filled,
            _ => 0,
        }
    }

    // How many bytes are held: those of an unfinished segment, and those pending.
    #[tactic(auto, unfolding(crate::specs::Reader::held))]
    pub fn held(self) -> usize
        ensures { result ≡ held (paper_reader self) }
    {
        if admit::is_admissible(self, self.segment_len, self.reassembly_len) {
            admit::held_in(self)
        } else {
            0
        }
    }

    // Works on to the first answer that is due, and takes no byte beyond.
    #[tactic(auto, using(crate::proofs::Steps::admitted), unfolding(crate::specs::Call::call))]
    pub fn read(self, segment: &mut [u8], reassembly: &mut [u8], piece: &[u8]) -> Step
        ensures { paper_step result segment.new reassembly.new ≡ call (paper_reader self) segment.old reassembly.old piece.now }
    {
        if !admit::is_admissible(self, segment.len(), reassembly.len()) {
            return work::step(self, Err(Refusal::Inadmissible), 0);
        }
        work::work(self, segment, reassembly, piece)
    }

    // The Rust's outer shape: the reader is lent, and the next one is stored in its place.
    pub fn consume(&mut self, segment: &mut [u8], reassembly: &mut [u8], piece: &[u8]) -> Heard
        ensures { paper_heard result self.new segment.new reassembly.new ≡ call (paper_reader self.old) segment.old reassembly.old piece.now }
    {
        let step = self.read(segment, reassembly, piece);
        *self = step.reader;
        step.heard
    }
}
