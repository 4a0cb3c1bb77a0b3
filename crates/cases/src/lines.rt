// Answers, a line for each line of standard input.
use crate::input::read_whole;
use crate::say::Page;
use crate::tell::Failure;
use std::fmt;
use std::fmt::Write;
use std::io::{Stdin, Stdout};

// What answers a line.
pub trait Answerer {
    // Writes the answer without an end; None where the line is no case.
    fn answer(&mut self, page: &mut Page, line: &[u8]) -> Option<fmt::Result>;
}

// Each answer stands at its line. The lines behind one whose answer can't be written are not answered.
fn answer_each<A: Answerer>(answerer: &mut A, page: &mut Page, input: &[u8]) -> fmt::Result {
    for line in input.split_inclusive(|byte| *byte == b'\n') {
        let line = line.strip_suffix(b"\n").unwrap_or(line);
        match answerer.answer(page, line) {
            Some(answered) => answered?,
            None => page.write_str("?")?,
        }
        page.write_str("\n")?;
    }
    page.flush()
}

// The whole input is read before the first answer, into the room that is lent.
pub fn answer_input<A: Answerer>(
    answerer: &mut A,
    stdin: Stdin,
    stdout: Stdout,
    room: &mut [u8],
) -> Result<(), Failure> {
    let input = read_whole(stdin, room)?;
    answer_each(answerer, &mut Page::new(stdout), input)?;
    Ok(())
}
