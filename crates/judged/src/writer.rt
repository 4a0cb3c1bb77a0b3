// Notations, envelopes and segments written.
use crate::reader;
use crate::words::{form, get, of_form, put, put_answer, put_reading};
use frame::Content;
use frame::write::write_envelope;
use frame_encoder::{FrameEncoder, Step};
use refusal::Refusal;
use segment::Header;
use types::number::{signed32, signed64};
use types::write;

// Word 0: 0 a refusal (word 1 its number), 1 where the bytes written end (word 1).
fn put_written(said: &mut [usize], answer: Result<usize, Refusal>) {
    put_answer(said, answer.map(|next| [1, next, 0, 0]));
}

fn written_number(kind: usize, out: &mut [u8], at: usize, bits: u64) -> Result<usize, Refusal> {
    match kind {
        0 => write::write_byte(out, at, (bits % 0x100) as u8),
        1 => write::write_short(out, at, (bits % 0x1_0000) as u16),
        2 => write::write_int(out, at, signed32((bits % 0x1_0000_0000) as u32)),
        _ => write::write_long(out, at, signed64(bits)),
    }
}

// Byte, short, int or long, of which the lowest bits count.
#[unsafe(no_mangle)]
pub extern "C" fn judged_write_number(
    kind: usize,
    out: &mut [u8],
    at: usize,
    bits: u64,
    said: &mut [usize],
) {
    put_written(said, written_number(kind, out, at, bits));
}

// Of bytes that are not 16, which no host asks for, the first 16, with zeros for those that are not there.
fn written_uuid(out: &mut [u8], at: usize, bytes: &[u8]) -> Result<usize, Refusal> {
    let mut id: [u8; 16] = [0; 16];
    put(&mut id, 0, bytes);
    write::write_uuid(out, at, id)
}

fn written_bytes(kind: usize, out: &mut [u8], at: usize, bytes: &[u8]) -> Result<usize, Refusal> {
    match kind {
        4 => written_uuid(out, at, bytes),
        5 => write::write_short_bytes(out, at, bytes),
        6 => write::write_string(out, at, bytes),
        7 => write::write_long_string(out, at, bytes),
        8 => write::write_bytes(out, at, bytes),
        _ => write::write_null(out, at),
    }
}

// The notations as `judged_notation` names them; any other name is null.
#[unsafe(no_mangle)]
pub extern "C" fn judged_write_bytes(
    kind: usize,
    out: &mut [u8],
    at: usize,
    bytes: &[u8],
    said: &mut [usize],
) {
    put_written(said, written_bytes(kind, out, at, bytes));
}

#[unsafe(no_mangle)]
pub extern "C" fn judged_write_list(
    out: &mut [u8],
    at: usize,
    text: &[u8],
    lens: &[usize],
    said: &mut [usize],
) {
    put_written(said, write::write_string_list(out, at, text, lens));
}

// The fields are those of `reader::header`.
#[unsafe(no_mangle)]
pub extern "C" fn judged_write_envelope(
    out: &mut [u8],
    fields: &[usize],
    id: &[u8],
    text: &[u8],
    lens: &[usize],
    body: &[u8],
    said: &mut [usize],
) {
    let content = Content {
        id,
        text,
        lens,
        body,
    };
    put_written(said, write_envelope(out, reader::header(fields), content));
}

// Form, payload so far.
fn encoder(state: &[usize]) -> FrameEncoder {
    FrameEncoder {
        form: form(get(state, 0)),
        payload: get(state, 1),
    }
}

fn put_encoder(state: &mut [usize], next: FrameEncoder) {
    put(state, 0, &[of_form(next.form), next.payload]);
}

// Word 0: 0 a refusal (word 1 its number), 1 so many bytes written (word 1) and so many taken of what was given (word 2).
fn put_step(state: &mut [usize], said: &mut [usize], step: Step) {
    put_encoder(state, step.encoder);
    put_answer(
        said,
        step.answer.map(|wrote| [1, wrote.size, wrote.taken, 0]),
    );
}

#[unsafe(no_mangle)]
pub extern "C" fn judged_can_fit(state: &[usize], len: usize) -> bool {
    encoder(state).can_fit(len)
}

#[unsafe(no_mangle)]
pub extern "C" fn judged_has_envelopes(state: &[usize]) -> bool {
    encoder(state).has_envelopes()
}

#[unsafe(no_mangle)]
pub extern "C" fn judged_reset(state: &mut [usize]) {
    let next = encoder(state).reset();
    put_encoder(state, next);
}

#[unsafe(no_mangle)]
pub extern "C" fn judged_add(
    state: &mut [usize],
    out: &mut [u8],
    envelope: &[u8],
    said: &mut [usize],
) {
    let step = encoder(state).add_envelope(out, envelope);
    put_step(state, said, step);
}

#[unsafe(no_mangle)]
pub extern "C" fn judged_finish(state: &mut [usize], out: &mut [u8], said: &mut [usize]) {
    let step = encoder(state).finalize_self_contained(out);
    put_step(state, said, step);
}

#[unsafe(no_mangle)]
pub extern "C" fn judged_piece(
    state: &mut [usize],
    out: &mut [u8],
    envelope: &[u8],
    said: &mut [usize],
) {
    let step = encoder(state).finalize_non_self_contained(out, envelope);
    put_step(state, said, step);
}

fn of_header(header: Header) -> [usize; 3] {
    let payload = header.payload as usize;
    let uncompressed = header.uncompressed as usize;
    [payload, uncompressed, header.self_contained as usize]
}

// Words 1 to 3 of a header: payload's length, length before compression, self-contained.
#[unsafe(no_mangle)]
pub extern "C" fn judged_header(long: usize, bytes: &[u8], said: &mut [usize]) {
    let read = segment::read_header(form(long), bytes);
    put_reading(said, 1, read.map(|header| header.map(of_header)));
}
