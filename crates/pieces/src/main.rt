// Gives the stream of each line of standard input to a reader in pieces, and writes what was written down of it, a line for a line. README.md beside src/
// has the shape of a line.
#![tactic(auto)]

use cases::lines::{Answerer, answer_input};
use cases::room::filled;
use cases::say::Page;
use cases::tell::tell;
use cases::words;
use outcome::Outcome;
use segment::Form;
use std::fmt;
use std::fmt::Write;
use stream::collect;

mod outcome;

// The longest input.
const LINES_LEN: usize = 393_216;

// The most bytes or cuts that a word may stand for.
const MOST: usize = 131_200;

// One byte more than the ranges of both buffers have, so that their ends can be passed.
const SEGMENT_LEN: usize = 131_084;

const REASSEMBLY_LEN: usize = 1_048_577;

const ENVELOPES_LEN: usize = 131_200;

const MARKS_LEN: usize = 256;

fn form(word: &[u8]) -> Option<Form> {
    match word {
        b"short" => Some(Form::Short),
        b"long" => Some(Form::Long),
        _ => None,
    }
}

// Room for what the words of a line stand for.
#[derive(Drop)]
struct Cases {
    cuts: [usize; MOST],
    bytes: [u8; MOST],
}

// The lengths of the two buffers and the two outputs.
fn lengths(line: &[u8]) -> Option<[usize; 4]> {
    Some([
        words::number_at(line, 1)?,
        words::number_at(line, 2)?,
        words::number_at(line, 3)?,
        words::number_at(line, 4)?,
    ])
}

// Buffers and outputs are fresh, and filled so that every change shows: no mark is 1. Only the front of each is lent; where one is not so long it is no case.
// A function of their own, so that they are filled for no line that has no such words.
fn give(
    page: &mut Page,
    form: Form,
    lengths: [usize; 4],
    bytes: &[u8],
    cuts: &[usize],
) -> Option<fmt::Result> {
    let mut segment: [u8; SEGMENT_LEN] = filled(0xee);
    let mut reassembly: [u8; REASSEMBLY_LEN] = filled(0xee);
    let mut envelopes: [u8; ENVELOPES_LEN] = filled(0xee);
    let mut marks: [usize; MARKS_LEN] = filled(1);
    let [a, b, c, d] = lengths;
    let segment = segment.get_mut(..a)?;
    let reassembly = reassembly.get_mut(..b)?;
    let envelopes = envelopes.get_mut(..c)?;
    let marks = marks.get_mut(..d)?;
    let all = collect(form, segment, reassembly, bytes, cuts, envelopes, marks);
    let outcome = Outcome {
        all,
        segment,
        reassembly,
        envelopes,
        marks,
    };
    Some(write!(page, "{outcome}"))
}

impl Answerer for Cases {
    fn answer(&mut self, page: &mut Page, line: &[u8]) -> Option<fmt::Result> {
        let form = form(words::word(line, 0)?)?;
        let cuts = words::items_at(line, 5, &mut self.cuts)?;
        let bytes = words::items_at(line, 6, &mut self.bytes)?;
        give(page, form, lengths(line)?, bytes, cuts)
    }
}

fn main(rt: HostRuntime) {
    let mut lines: [u8; LINES_LEN] = filled(0);
    let mut cases = Cases {
        cuts: filled(0),
        bytes: filled(0),
    };
    if let Err(why) = answer_input(&mut cases, rt.stdin(), rt.stdout(), &mut lines) {
        tell(rt.stderr(), "pieces", why);
    }
}
