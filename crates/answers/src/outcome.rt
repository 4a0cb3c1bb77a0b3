// What several answers have in common.
use cases::say::{Page, Spelt};
use refusal::Refusal;
use std::fmt;
use std::fmt::Write;

// How long an output is: the longest segment, with some bytes more.
pub const OUTPUT_LEN: usize = 131_200;

pub fn refused(page: &mut Page, why: Refusal) -> fmt::Result {
    write!(page, "refused {}", why.number())
}

// Only what was written is shown.
pub fn wrote(page: &mut Page, output: &[u8], n: usize) -> fmt::Result {
    let written = Spelt(output.get(..n).unwrap_or(output));
    write!(page, "wrote {written}")
}

pub fn written(page: &mut Page, answer: Result<usize, Refusal>, output: &[u8]) -> fmt::Result {
    match answer {
        Ok(n) => wrote(page, output, n),
        Err(why) => refused(page, why),
    }
}
