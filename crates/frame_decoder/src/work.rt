// One call: settling and taking bytes in turn, a run of bytes at a time.
ghost use Rattle.std.specs.Prelude.{◌≡◌, ◌-◌, ◌≤◌, min, length, take};
ghost use Rattle.types.specs.Write.{put};
ghost use Rattle.frame_decoder.specs.Reader.{pushed, counts_of, max_segment};
ghost use Rattle.frame_decoder.specs.Call.{work};
ghost use Rattle.frame_decoder.specs.Paper.{paper_reader, paper_step};
ghost use Rattle.frame_decoder.specs.Private.Inside.{Admitted, wanted, Roomy, step_of, FilledIs, TurnIs};

use crate::settle::{Due, settle};
use crate::{Answer, FrameDecoder, Heard, Phase, Step};
use refusal::Refusal;
use segment::{TRAILER_LEN, header_len};
use std::ops::ControlFlow;
use types::inner::put_bytes;

pub(crate) fn step(reader: FrameDecoder, answer: Result<Answer, Refusal>, taken: usize) -> Step
    ensures { result ≡ step_of reader answer taken }
{
    Step {
        reader,
        heard: Heard { answer, taken },
    }
}

// As many of the bytes as there is room for before end, and their number.
fn fill_up(segment: &mut [u8], filled: usize, end: usize, bytes: &[u8]) -> usize
    requires { (filled ≤ end) × (end ≤ length segment.old) }
    ensures { (result ≡ min (end - filled) (length bytes.now)) × (segment.new ≡ put segment.old filled (take result bytes.now)) }
{
    let took = bytes.len().min(end - filled);
    put_bytes(segment, filled, &bytes[..took]);
    took
}

// With how many bytes a header or a segment is judged next.
fn goal(m: FrameDecoder) -> usize
    requires { (counts_of (paper_reader m)).goal ≤ max_segment }
    ensures { result ≡ (counts_of (paper_reader m)).goal }
{
    match m.phase {
        Phase::Header { .. } => header_len(m.form),
        Phase::Rest { len, .. } => header_len(m.form) + len + TRAILER_LEN,
        _ => 0,
    }
}

// So many more are there.
fn pushed(m: FrameDecoder, k: usize) -> FrameDecoder
    requires { (k ≤ wanted (counts_of (paper_reader m))) × ((counts_of (paper_reader m)).goal ≤ max_segment) }
    ensures { paper_reader result ≡ pushed k (paper_reader m) }
{
    match m.phase {
        Phase::Header { filled } => m.in_phase(Phase::Header { filled: filled + k }),
        Phase::Rest {
            filled,
            len,
            self_contained,
        } => m.in_phase(Phase::Rest {
            filled: filled + k,
            len,
            self_contained,
        }),
        _ => m,
    }
}

// Takes what is still to come of the header or the segment, as far as the bytes go, and answers how many.
fn fill(m: FrameDecoder, segment: &mut [u8], bytes: &[u8]) -> usize
    requires { Roomy (length segment.old) (counts_of (paper_reader m)) × (length segment.old ≤ max_segment) }
    ensures { FilledIs result (paper_reader m) segment.old segment.new bytes.now }
{
    fill_up(segment, m.filled(), goal(m), bytes)
}

// Settles, and where nothing is due takes what it can of the rest of the piece: the call ends, or goes on with a reader and how many bytes were taken so far.
fn take_turn(
    m: FrameDecoder,
    taken: usize,
    segment: &mut [u8],
    reassembly: &mut [u8],
    piece: &[u8],
) -> ControlFlow<Step, (FrameDecoder, usize)>
    requires { Admitted (paper_reader m) (length segment.old) (length reassembly.old) × (taken ≤ length piece.now) }
    ensures { TurnIs result taken (paper_reader m) segment.old reassembly.old piece.now segment.new reassembly.new }
{
    match settle(m, segment, reassembly) {
        Due::Answered(answer, reader) => ControlFlow::Break(step(reader, Ok(answer), taken)),
        Due::Refused(e, reader) => ControlFlow::Break(step(reader, Err(e), taken)),
        Due::Waits(reader) if taken == piece.len() => {
            ControlFlow::Break(step(reader, Ok(Answer::More), taken))
        }
        Due::Waits(reader) => {
            let took = fill(reader, segment, &piece[taken..]);
            ControlFlow::Continue((pushed(reader, took), taken + took))
        }
    }
}

// Each turn but the last takes a byte at least.
pub(crate) fn work(
    reader: FrameDecoder,
    segment: &mut [u8],
    reassembly: &mut [u8],
    piece: &[u8],
) -> Step
    requires { Admitted (paper_reader reader) (length segment.old) (length reassembly.old) }
    ensures { paper_step result segment.new reassembly.new ≡ work 0 (paper_reader reader) segment.old reassembly.old piece.now }
{
    let mut m = reader;
    let mut taken = 0;
    loop {
        match take_turn(m, taken, segment, reassembly, piece) {
            ControlFlow::Break(step) => return step,
            ControlFlow::Continue(next) => (m, taken) = next,
        }
    }
}
