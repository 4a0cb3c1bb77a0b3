// The segment writer: a value that goes into each call and comes back changed, over a lent output.
// `specs/Paper.antt` says what each case of an answer means.
#![tactic(auto)]

ghost use Rattle.std.specs.Prelude.{◌≡◌, ◌+◌, ◌≤◌, OnOk, ltb, length};
ghost use Rattle.types.specs.Number.{part};
ghost use Rattle.types.specs.Paper.{paper_writable};
ghost use Rattle.types.specs.Write.{put};
ghost use Rattle.segment.specs.Header.{header_length};
ghost use Rattle.segment.specs.Segment.{segment_length, segment_bytes};
ghost use Rattle.segment.specs.Paper.{paper_form};
ghost use Rattle.frame_encoder.specs.Writer.{done, fresh, fits, add_check, add, finish_check, finish, piece_of, piece_check, piece};
ghost use Rattle.frame_encoder.specs.Paper.{paper_writer, paper_encoded, paper_step};

use crc::crc32;
use refusal::Refusal;
use segment::{Form, Header, MAX_PAYLOAD, TRAILER_LEN};
use types::inner;

// The form, and the length of the payload so far.
#[derive(Clone, Copy, Debug, PartialEq, Eq)]
pub struct FrameEncoder {
    pub form: Form,
    pub payload: usize,
}

// How many bytes were written, and of what was given how many went in.
#[derive(Clone, Copy, Debug, PartialEq, Eq)]
pub struct Wrote {
    pub size: usize,
    pub taken: usize,
}

#[derive(Clone, Copy, Debug, PartialEq, Eq)]
pub struct Step {
    pub encoder: FrameEncoder,
    pub answer: Result<Wrote, Refusal>,
}

// How long a segment with this payload is, which is not longer than a segment's.
fn segment_len(form: Form, payload: usize) -> usize
    requires { payload ≤ 131071 }
    ensures { result ≡ segment_length (paper_form form) payload }
{
    segment::header_len(form) + payload + TRAILER_LEN
}

// Header and trailer around a payload that stands in out, behind the room for the header.
#[tactic(auto, using(crate::proofs::Laid::closed, types::proofs::BigEndian::part_of))]
fn close(out: &mut [u8], form: Form, payload: usize, self_contained: bool)
    requires { (payload ≤ 131071) × (segment_length (paper_form form) payload ≤ length out.old) }
    ensures { out.new ≡ put out.old 0 (segment_bytes (paper_form form) self_contained (part out.old (header_length (paper_form form)) payload)) }
{
    let start = segment::header_len(form);
    let end = start + payload;
    let check = crc32(&out[start..end]);
    let header = Header {
        payload: payload as u32,
        uncompressed: 0,
        self_contained,
    };
    segment::inner::put_header(out, form, header);
    segment::inner::put_number(out, end, TRAILER_LEN, check as u64);
}

// The smaller of a length and the longest payload.
#[tactic(auto, unfolding(crate::specs::Writer::piece_of))]
fn piece_of(n: usize) -> usize
    ensures { (result ≡ piece_of n) × (result ≤ n) × (result ≤ 131071) }
{
    n.min(MAX_PAYLOAD)
}

impl FrameEncoder {
    pub fn new(form: Form) -> FrameEncoder
        ensures { paper_writer result ≡ fresh (paper_form form) }
    {
        FrameEncoder { form, payload: 0 }
    }

    // An envelope of this length fits behind the payload so far.
    #[tactic(auto, unfolding(crate::specs::Writer::fits))]
    pub fn can_fit(self, len: usize) -> bool
        ensures { result ≡ fits (paper_writer self) len }
    {
        self.payload <= MAX_PAYLOAD && len <= MAX_PAYLOAD - self.payload
    }

    pub fn has_envelopes(self) -> bool
        ensures { result ≡ ltb 0 self.payload }
    {
        0 < self.payload
    }

    // What was added is forgotten.
    pub fn reset(mut self) -> FrameEncoder
        ensures { paper_writer result ≡ fresh (paper_form self.form) }
    {
        self.payload = 0;
        self
    }

    // 1, 16, 14.
    #[tactic(auto, unfolding(crate::specs::Writer::add_check, crate::specs::Writer::fits))]
    fn check_add(self, room: usize, n: usize) -> Result<(), Refusal>
        ensures says { paper_writable result ≡ add_check (paper_writer self) room n }
        ensures fits { OnOk result ((self.payload + n ≤ 131071) × (segment_length (paper_form self.form) (self.payload + n) ≤ room)) }
    {
        if MAX_PAYLOAD < self.payload {
            return Err(Refusal::Inadmissible);
        }
        if !self.can_fit(n) {
            return Err(Refusal::EnvelopeDoesNotFit);
        }
        if room < segment_len(self.form, self.payload + n) {
            return Err(Refusal::OutputTooShort);
        }
        Ok(())
    }

    // 1, 14.
    #[tactic(auto, unfolding(crate::specs::Writer::finish_check))]
    fn check_finish(self, room: usize) -> Result<(), Refusal>
        ensures says { paper_writable result ≡ finish_check (paper_writer self) room }
        ensures fits { OnOk result ((self.payload ≤ 131071) × (segment_length (paper_form self.form) self.payload ≤ room)) }
    {
        if MAX_PAYLOAD < self.payload {
            return Err(Refusal::Inadmissible);
        }
        if room < segment_len(self.form, self.payload) {
            return Err(Refusal::OutputTooShort);
        }
        Ok(())
    }

    // 1, 17, 14.
    #[tactic(auto, unfolding(crate::specs::Writer::piece_check))]
    fn check_piece(self, room: usize, n: usize) -> Result<(), Refusal>
        ensures says { paper_writable result ≡ piece_check (paper_writer self) room n }
        ensures fits { OnOk result (segment_length (paper_form self.form) (piece_of n) ≤ room) }
    {
        if MAX_PAYLOAD < self.payload {
            return Err(Refusal::Inadmissible);
        }
        if self.payload != 0 {
            return Err(Refusal::SegmentNotEmpty);
        }
        if room < segment_len(self.form, piece_of(n)) {
            return Err(Refusal::OutputTooShort);
        }
        Ok(())
    }

    // An envelope, any bytes, behind the payload so far.
    #[tactic(auto, unfolding(crate::specs::Writer::add))]
    pub fn add_envelope(self, out: &mut [u8], envelope: &[u8]) -> Step
        ensures { paper_step result out.new ≡ add (paper_writer self) out.old envelope.now }
    {
        let n = envelope.len();
        if let Err(e) = self.check_add(out.len(), n) {
            return Step {
                encoder: self,
                answer: Err(e),
            };
        }
        let at = segment::header_len(self.form) + self.payload;
        inner::put_bytes(out, at, envelope);
        Step {
            encoder: FrameEncoder {
                form: self.form,
                payload: self.payload + n,
            },
            answer: Ok(Wrote { size: n, taken: n }),
        }
    }

    // The segment of what was added.
    #[tactic(auto, unfolding(crate::specs::Writer::finish))]
    pub fn finalize_self_contained(self, out: &mut [u8]) -> Step
        ensures { paper_step result out.new ≡ finish (paper_writer self) out.old }
    {
        if let Err(e) = self.check_finish(out.len()) {
            return Step {
                encoder: self,
                answer: Err(e),
            };
        }
        close(out, self.form, self.payload, true);
        let size = segment_len(self.form, self.payload);
        Step {
            encoder: self.reset(),
            answer: Ok(Wrote { size, taken: 0 }),
        }
    }

    // A segment of the front of an envelope that is sent in pieces.
    #[tactic(auto, using(crate::proofs::Laid::front_laid), unfolding(crate::specs::Writer::piece))]
    pub fn finalize_non_self_contained(self, out: &mut [u8], envelope: &[u8]) -> Step
        ensures { paper_step result out.new ≡ piece (paper_writer self) out.old envelope.now }
    {
        if let Err(e) = self.check_piece(out.len(), envelope.len()) {
            return Step {
                encoder: self,
                answer: Err(e),
            };
        }
        let taken = piece_of(envelope.len());
        let start = segment::header_len(self.form);
        inner::put_bytes(out, start, &envelope[..taken]);
        close(out, self.form, taken, false);
        let size = segment_len(self.form, taken);
        Step {
            encoder: self.reset(),
            answer: Ok(Wrote { size, taken }),
        }
    }

    // The Rust's outer shape: the writer is lent, and the next one is stored in its place.

    pub fn reset_mut(&mut self)
        ensures { paper_writer self.new ≡ fresh (paper_form self.old.form) }
    {
        *self = self.reset();
    }

    pub fn add_envelope_mut(&mut self, out: &mut [u8], envelope: &[u8]) -> Result<Wrote, Refusal>
        ensures { done (paper_writer self.new) (paper_encoded result) out.new ≡ add (paper_writer self.old) out.old envelope.now }
    {
        let step = self.add_envelope(out, envelope);
        *self = step.encoder;
        step.answer
    }

    pub fn finalize_self_contained_mut(&mut self, out: &mut [u8]) -> Result<Wrote, Refusal>
        ensures { done (paper_writer self.new) (paper_encoded result) out.new ≡ finish (paper_writer self.old) out.old }
    {
        let step = self.finalize_self_contained(out);
        *self = step.encoder;
        step.answer
    }

    pub fn finalize_non_self_contained_mut(
        &mut self,
        out: &mut [u8],
        envelope: &[u8],
    ) -> Result<Wrote, Refusal>
        ensures { done (paper_writer self.new) (paper_encoded result) out.new ≡ piece (paper_writer self.old) out.old envelope.now }
    {
        let step = self.finalize_non_self_contained(out, envelope);
        *self = step.encoder;
        step.answer
    }
}
