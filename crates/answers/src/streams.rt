// The cases that read a stream, each with a fresh reader that is given it in two pieces.
use crate::envelope::Whole;
use cases::say::Page;
use cases::streams::{Listener, Stream};
use cases::words;
use frame::Envelope;
use segment::Form;
use std::fmt;
use std::fmt::Write;

const SEGMENT_LEN: usize = 131_083;

const REASSEMBLY_LEN: usize = 262_144;

struct Envelopes;

// A leftover is not said.
impl Listener for Envelopes {
    fn envelope(page: &mut Page, bytes: &[u8], envelope: Envelope) -> fmt::Result {
        let whole = Whole { bytes, envelope };
        write!(page, "env {whole}; ")
    }

    fn leftover(_page: &mut Page, _n: usize) -> fmt::Result {
        Ok(())
    }
}

fn read(page: &mut Page, form: Form, first: &[u8], second: &[u8]) -> fmt::Result {
    let mut stream = Stream::<SEGMENT_LEN, REASSEMBLY_LEN>::new(form);
    for piece in [first, second] {
        if let Some(why) = stream.use_up::<Envelopes>(page, piece)? {
            write!(page, "refused {}; ", why.number())?;
            break;
        }
        write!(page, "more; ")?;
    }
    write!(page, "end")
}

pub fn answer(page: &mut Page, form: Form, line: &[u8], bytes: &[u8]) -> Option<fmt::Result> {
    let (first, second) = bytes.split_at_checked(words::number_at(line, 1)?)?;
    Some(read(page, form, first, second))
}
