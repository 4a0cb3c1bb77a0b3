// Envelopes and streams.
use crate::words::{copy, form, get, of_form, put, put_reading, put_refused};
use frame::{Direction, Envelope, Header, read};
use frame_decoder::{Answer, Buffer, FrameDecoder, Phase, Step};
use refusal::Refusal;
use types::number::{bits16, signed16};
use types::{Place, Walk};

fn direction(word: usize) -> Direction {
    match word {
        0 => Direction::Request,
        _ => Direction::Response,
    }
}

fn of_direction(direction: Direction) -> usize {
    match direction {
        Direction::Request => 0,
        Direction::Response => 1,
    }
}

fn buffer(word: usize) -> Buffer {
    match word {
        0 => Buffer::Segment,
        _ => Buffer::Reassembly,
    }
}

fn of_buffer(buffer: Buffer) -> usize {
    match buffer {
        Buffer::Segment => 0,
        Buffer::Reassembly => 1,
    }
}

// Whole length; version, direction, flags, stream (16 bits), opcode; whether there is an id, the warnings' number and place, the body's place and length.
fn of_envelope(e: Envelope) -> [usize; 11] {
    let header = e.header;
    [
        e.size,
        header.version as usize,
        of_direction(header.direction),
        header.flags as usize,
        bits16(header.stream) as usize,
        header.opcode as usize,
        e.traced as usize,
        e.warnings.left as usize,
        e.warnings.at,
        e.body.start,
        e.body.len,
    ]
}

// An envelope stands from word 4 on.
#[unsafe(no_mangle)]
pub extern "C" fn judged_parse(bytes: &[u8], said: &mut [usize]) {
    let read = read::read_envelope(bytes);
    put_reading(said, 4, read.map(|e| e.map(of_envelope)));
}

// Version, direction, flags, stream (16 bits), opcode.
pub fn header(fields: &[usize]) -> Header {
    Header {
        version: (get(fields, 0) % 0x100) as u8,
        direction: direction(get(fields, 1)),
        flags: (get(fields, 2) % 0x100) as u8,
        stream: signed16((get(fields, 3) % 0x1_0000) as u16),
        opcode: (get(fields, 4) % 0x100) as u8,
    }
}

// An envelope of which only the parts count, from words as they are put above.
fn envelope(said: &[usize]) -> Envelope {
    Envelope {
        size: get(said, 4),
        header: header(&[]),
        traced: get(said, 10) == 1,
        warnings: Walk {
            left: (get(said, 11) % 0x1_0000) as u16,
            at: get(said, 12),
        },
        body: Place {
            start: get(said, 13),
            len: get(said, 14),
        },
    }
}

// These copy a part, and answer how long it is.
#[unsafe(no_mangle)]
pub extern "C" fn judged_body(bytes: &[u8], said: &[usize], out: &mut [u8]) -> usize {
    copy(out, read::body(bytes, envelope(said)))
}

#[unsafe(no_mangle)]
pub extern "C" fn judged_tracing_id(bytes: &[u8], said: &[usize], out: &mut [u8]) -> usize {
    copy(out, read::tracing_id(bytes, envelope(said)))
}

#[unsafe(no_mangle)]
pub extern "C" fn judged_stream_part<'a>(
    which: usize,
    segment: &'a [u8],
    reassembly: &'a [u8],
    start: usize,
    len: usize,
    out: &mut [u8],
) -> usize {
    let place = Place { start, len };
    let part = frame_decoder::part(buffer(which), segment, reassembly, place);
    copy(out, part)
}

fn flag(word: usize) -> Option<bool> {
    match word {
        0 => Some(false),
        1 => Some(true),
        _ => None,
    }
}

// A phase by its name, and up to three numbers.
fn phase(name: usize, a: usize, b: usize, c: usize) -> Option<Phase> {
    match name {
        0 => Some(Phase::Header { filled: a }),
        1 => Some(Phase::Rest {
            filled: a,
            len: b,
            self_contained: flag(c)?,
        }),
        2 => Some(Phase::InSegment { len: a, at: b }),
        3 => Some(Phase::InReassembly { at: a }),
        4 => Some(Phase::Stopped(refusal::of_number(a)?)),
        _ => None,
    }
}

// State: form, the two lengths, pending, then the phase. Fewer than eight words are no state, nor are those in which one stands for no form, for no phase,
// for no refusal, or neither for yes nor for no.
fn reader(state: &[usize]) -> Option<FrameDecoder> {
    let &[long, segment, reassembly, pending, name, a, b, c, ..] = state else {
        return None;
    };
    if long > 1 {
        return None;
    }
    Some(FrameDecoder {
        form: form(long),
        segment_len: segment,
        reassembly_len: reassembly,
        pending,
        phase: phase(name, a, b, c)?,
    })
}

fn of_phase(phase: Phase) -> [usize; 4] {
    match phase {
        Phase::Header { filled } => [0, filled, 0, 0],
        Phase::Rest {
            filled,
            len,
            self_contained,
        } => [1, filled, len, self_contained as usize],
        Phase::InSegment { len, at } => [2, len, at, 0],
        Phase::InReassembly { at } => [3, at, 0, 0],
        Phase::Stopped(why) => [4, why.number() as usize, 0, 0],
    }
}

fn put_state(state: &mut [usize], m: FrameDecoder) {
    put(
        state,
        0,
        &[of_form(m.form), m.segment_len, m.reassembly_len, m.pending],
    );
    put(state, 4, &of_phase(m.phase));
}

// Word 0: 0 more, 1 an envelope (words 1 to 3: buffer, start, whole length; from word 4 on the envelope), 2 a refusal, 3 leftover; of the last two
// word 1 is the number.
fn put_heard(said: &mut [usize], answer: Result<Answer, Refusal>) {
    match answer {
        Ok(Answer::More) => put(said, 0, &[0]),
        Ok(Answer::Envelope(buffer, place, e)) => {
            put(said, 0, &[1, of_buffer(buffer), place.start, place.len]);
            put(said, 4, &of_envelope(e));
        }
        Ok(Answer::Leftover(n)) => put(said, 0, &[3, n, 0, 0]),
        Err(why) => put_refused(said, 2, why),
    }
}

// Words that are no state hold nothing.
#[unsafe(no_mangle)]
pub extern "C" fn judged_held(state: &[usize]) -> usize {
    reader(state).map_or(0, FrameDecoder::held)
}

fn put_step(state: &mut [usize], said: &mut [usize], step: Step) -> usize {
    put_state(state, step.reader);
    put_heard(said, step.heard.answer);
    step.heard.taken
}

// One call. The answer is the number of bytes taken. Words that are no state are answered by refusal 1 and stay.
#[unsafe(no_mangle)]
pub extern "C" fn judged_read(
    state: &mut [usize],
    segment: &mut [u8],
    reassembly: &mut [u8],
    piece: &[u8],
    said: &mut [usize],
) -> usize {
    match reader(state) {
        Some(reader) => put_step(state, said, reader.read(segment, reassembly, piece)),
        None => {
            put_refused(said, 2, Refusal::Inadmissible);
            0
        }
    }
}
