// Answers what each line of standard input asks, a line for a line. README.md beside src/ has the shapes of a line.
#![tactic(auto)]

use cases::lines::{Answerer, answer_input};
use cases::room::filled;
use cases::say::Page;
use cases::tell::tell;
use cases::words;
use segment::Form;
use std::fmt;

mod encode;
mod envelope;
mod notations;
mod outcome;
mod segments;
mod streams;

// The longest input.
const LINES_LEN: usize = 524_288;

// The most bytes or lengths that a word may stand for: two of the longest segments, with some bytes more.
const MOST: usize = 262_200;

#[derive(Drop)]
struct Questions;

// The last word of each case is some bytes.
impl Answerer for Questions {
    fn answer(&mut self, page: &mut Page, line: &[u8]) -> Option<fmt::Result> {
        let mut room: [u8; MOST] = filled(0);
        let count = words::count(line);
        let name = words::word(line, 0)?;
        let bytes = words::items_at(line, count, &mut room)?;
        match (count, name) {
            (1, _) => notations::answer(page, name, bytes),
            (2, b"pack") => segments::answer(page, line, bytes),
            (2, b"short") => streams::answer(page, Form::Short, line, bytes),
            (2, b"long") => streams::answer(page, Form::Long, line, bytes),
            (9, b"encode") => encode::answer(page, line, bytes),
            _ => None,
        }
    }
}

fn main(rt: HostRuntime) {
    let mut lines: [u8; LINES_LEN] = filled(0);
    if let Err(why) = answer_input(&mut Questions, rt.stdin(), rt.stdout(), &mut lines) {
        tell(rt.stderr(), "answers", why);
    }
}
