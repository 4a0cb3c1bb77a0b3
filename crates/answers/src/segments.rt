// The cases that write a segment, each with a fresh writer of the short form over an output that has room for any segment.
use crate::outcome::OUTPUT_LEN;
use crate::{MOST, outcome};
use cases::room::filled;
use cases::say::Page;
use cases::words;
use frame_encoder::{FrameEncoder, Wrote};
use segment::Form;
use std::fmt;
use std::fmt::Write;

// An envelope that does not fit is the one refusal that comes where one is added.
fn pack(page: &mut Page, first: &[u8], second: &[u8]) -> fmt::Result {
    let mut output: [u8; OUTPUT_LEN] = filled(0);
    let mut encoder = FrameEncoder::new(Form::Short);
    for envelope in [first, second] {
        let added = encoder.add_envelope_mut(&mut output, envelope);
        let word = if added.is_ok() { "yes" } else { "no" };
        write!(page, "{word} ")?;
    }
    match encoder.finalize_self_contained_mut(&mut output) {
        Ok(wrote) => outcome::wrote(page, &output, wrote.size),
        Err(why) => outcome::refused(page, why),
    }
}

pub fn answer(page: &mut Page, line: &[u8], second: &[u8]) -> Option<fmt::Result> {
    let mut room: [u8; MOST] = filled(0);
    let first = words::items_at(line, 1, &mut room)?;
    Some(pack(page, first, second))
}

pub fn piece(page: &mut Page, bytes: &[u8]) -> fmt::Result {
    let mut output: [u8; OUTPUT_LEN] = filled(0);
    let mut encoder = FrameEncoder::new(Form::Short);
    match encoder.finalize_non_self_contained_mut(&mut output, bytes) {
        Ok(Wrote { size, taken }) => {
            write!(page, "took {taken} ")?;
            outcome::wrote(page, &output, size)
        }
        Err(why) => outcome::refused(page, why),
    }
}
