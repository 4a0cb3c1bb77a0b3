// What is due without another byte, up to the first answer.
#![tactic(auto, unfolding(crate::specs::Settle::header_due, crate::specs::Settle::leftover_due, crate::specs::Settle::from_segment, crate::specs::Settle::read_segment, crate::specs::Settle::from_pending, crate::specs::Settle::read_pending, crate::specs::Settle::read_alone, crate::specs::Settle::read_joined, crate::specs::Settle::segment_due, crate::specs::Settle::settle_at, crate::specs::Settle::settle))]

ghost use Rattle.std.specs.Prelude.{◌≡◌, ◌+◌, ◌≤◌, length, take};
ghost use Rattle.basis.specs.Front.{whole};
ghost use Rattle.refusal.specs.Refusal.{paper_refusal};
ghost use Rattle.types.specs.Number.{part};
ghost use Rattle.segment.specs.Header.{header_length, header as fields_are};
ghost use Rattle.segment.specs.Segment.{max_payload, segment_length, header_at, payload_at};
ghost use Rattle.segment.specs.Paper.{paper_form, paper_header};
ghost use Rattle.frame_decoder.specs.Settle.{settled, refusing, header_due, leftover_due, read_segment, moved_down, read_pending, read_alone, read_joined, segment_due, settle};
ghost use Rattle.frame_decoder.specs.Paper.{paper_reader};
ghost use Rattle.frame_decoder.specs.Private.Inside.{paper_due, Admitted};

use crate::{Answer, Buffer, FrameDecoder, Phase};
use frame::read::read_envelope;
use refusal::Refusal;
use segment::{Header, TRAILER_LEN, header_len, read_header, read_payload};
use types::Place;
use types::inner::put_bytes;

// An answer or a refusal, and the reader behind it; or a reader that waits for bytes.
#[derive(Clone, Copy)]
pub(crate) enum Due {
    Answered(Answer, FrameDecoder),
    Refused(Refusal, FrameDecoder),
    Waits(FrameDecoder),
}

// Any refusal stops the reader.
fn refuse(m: FrameDecoder, e: Refusal) -> Due
    ensures { paper_due result ≡ refusing (paper_refusal e) (paper_reader m) }
{
    Due::Refused(e, m.in_phase(Phase::Stopped(e)))
}

// A header that is there and passed its checks: 4.
fn passed(m: FrameDecoder, filled: usize, room: usize, header: Header) -> Due
    ensures { paper_due result ≡ header_due (paper_reader m) filled room (whole (paper_header header)) }
{
    let len = header.payload as usize;
    if room < header_len(m.form) + len + TRAILER_LEN {
        return refuse(m, Refusal::SegmentTooLong);
    }
    Due::Waits(m.in_phase(Phase::Rest {
        filled,
        len,
        self_contained: header.self_contained,
    }))
}

// So many bytes of a header are there: 2, 3, 4.
fn header_due(m: FrameDecoder, segment: &[u8], filled: usize) -> Due
    requires { filled ≤ length segment.now }
    ensures { paper_due result ≡ header_due (paper_reader m) filled (length segment.now) (header_at (paper_form m.form) (take filled segment.now)) }
{
    match read_header(m.form, &segment[..filled]) {
        Ok(None) => Due::Waits(m),
        Ok(Some(header)) => passed(m, filled, segment.len(), header),
        Err(e) => refuse(m, e),
    }
}

// A self-contained payload is read: what is left of it is dropped.
fn left_over(m: FrameDecoder, n: usize) -> Due
    ensures { paper_due result ≡ leftover_due (paper_reader m) n }
{
    let reader = m.in_phase(Phase::Header { filled: 0 });
    if n == 0 {
        return Due::Waits(reader);
    }
    Due::Answered(Answer::Leftover(n), reader)
}

// The next envelope of a self-contained payload, where it stands in the middle of the segment buffer. In line, since a stream of small envelopes takes a third
// longer or more with a call for each.
#[inline]
fn from_segment(m: FrameDecoder, segment: &[u8], len: usize, at: usize) -> Due
    requires { (at ≤ len) × (header_length (paper_form m.form) + len ≤ length segment.now) }
    ensures { paper_due result ≡ read_segment (paper_reader m) segment.now len at }
{
    let start = header_len(m.form) + at;
    let end = header_len(m.form) + len;
    let reading = match read_envelope(&segment[start..end]) {
        Ok(reading) => reading,
        Err(e) => return refuse(m, e),
    };
    let Some(envelope) = reading else {
        return left_over(m, len - at);
    };
    let size = envelope.size;
    let place = Place { start, len: size };
    let reader = m.in_phase(Phase::InSegment { len, at: at + size });
    Due::Answered(Answer::Envelope(Buffer::Segment, place, envelope), reader)
}

// n bytes from at on to the front; the bytes behind them keep what they held. What stands there already is not touched: a call costs no more than the bytes that it
// takes and reads.
#[tactic(auto, unfolding(types::specs::Write::put))]
fn move_down(buffer: &mut [u8], at: usize, n: usize)
    requires { at + n ≤ length buffer.old }
    ensures { buffer.new ≡ moved_down buffer.old at n }
{
    if at != 0 {
        for i in 0..n {
            buffer[i] = buffer[at + i];
        }
    }
}

// The next envelope of the pending bytes; where there is none, those unread are moved to the front.
fn from_pending(m: FrameDecoder, reassembly: &mut [u8], at: usize) -> Due
    requires { (at ≤ m.pending) × (m.pending ≤ length reassembly.old) }
    ensures { settled (paper_due result) reassembly.new ≡ read_pending (paper_reader m) reassembly.old at }
{
    let end = m.pending;
    let reading = match read_envelope(&reassembly[at..end]) {
        Ok(reading) => reading,
        Err(e) => return refuse(m, e),
    };
    let Some(envelope) = reading else {
        let unread = end - at;
        move_down(reassembly, at, unread);
        return Due::Waits(m.kept(unread, Phase::Header { filled: 0 }));
    };
    let size = envelope.size;
    let place = Place {
        start: at,
        len: size,
    };
    let reader = m.in_phase(Phase::InReassembly { at: at + size });
    Due::Answered(
        Answer::Envelope(Buffer::Reassembly, place, envelope),
        reader,
    )
}

// A segment that is not self-contained: 7, or its payload is appended, into the free tail of the reassembly buffer.
fn append(m: FrameDecoder, payload: &[u8], reassembly: &mut [u8]) -> Due
    requires { m.pending ≤ length reassembly.old }
    ensures { settled (paper_due result) reassembly.new ≡ read_joined (paper_reader m) reassembly.old payload.now }
{
    let len = payload.len();
    if reassembly.len() - m.pending < len {
        return refuse(m, Refusal::ReassemblyTooShort);
    }
    put_bytes(&mut reassembly[m.pending..], 0, payload);
    let joined = m.kept(m.pending + len, Phase::InReassembly { at: 0 });
    from_pending(joined, reassembly, 0)
}

// A self-contained segment: 6, or its payload is read where it stands.
fn alone(m: FrameDecoder, segment: &[u8], len: usize) -> Due
    requires { header_length (paper_form m.form) + len ≤ length segment.now }
    ensures { paper_due result ≡ read_alone (paper_reader m) segment.now len }
{
    if m.pending != 0 {
        return refuse(m, Refusal::UnexpectedSelfContained);
    }
    let reader = m.in_phase(Phase::InSegment { len, at: 0 });
    from_segment(reader, segment, len, 0)
}

// So many bytes of a segment are there whose header has passed: 5, then 6 or 7.
fn segment_due(
    m: FrameDecoder,
    segment: &[u8],
    reassembly: &mut [u8],
    filled: usize,
    len: usize,
    self_contained: bool,
) -> Due
    requires { (len ≤ max_payload) × (segment_length (paper_form m.form) len ≤ length segment.now) × (filled ≤ segment_length (paper_form m.form) len) × (m.pending ≤ length reassembly.old) }
    ensures { settled (paper_due result) reassembly.new ≡ segment_due (paper_reader m) segment.now reassembly.old len (payload_at (paper_form m.form) (take filled segment.now) (fields_are len 0 self_contained)) }
{
    let header = Header {
        payload: len as u32,
        uncompressed: 0,
        self_contained,
    };
    match read_payload(m.form, &segment[..filled], header) {
        Ok(false) => Due::Waits(m),
        Ok(true) if self_contained => alone(m, segment, len),
        Ok(true) => {
            let start = header_len(m.form);
            append(m, &segment[start..start + len], reassembly)
        }
        Err(e) => refuse(m, e),
    }
}

pub(crate) fn settle(m: FrameDecoder, segment: &[u8], reassembly: &mut [u8]) -> Due
    requires { Admitted (paper_reader m) (length segment.now) (length reassembly.old) }
    ensures { settled (paper_due result) reassembly.new ≡ settle (paper_reader m) segment.now reassembly.old }
{
    match m.phase {
        Phase::Header { filled } => header_due(m, segment, filled),
        Phase::Rest {
            filled,
            len,
            self_contained,
        } => segment_due(m, segment, reassembly, filled, len, self_contained),
        Phase::InSegment { len, at } => from_segment(m, segment, len, at),
        Phase::InReassembly { at } => from_pending(m, reassembly, at),
        Phase::Stopped(e) => Due::Refused(e, m),
    }
}
