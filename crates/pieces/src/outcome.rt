// What is written for a person of what was written down, and of the buffers after it.
use cases::say::Spelt;
use crc::Running32;
use std::fmt;
use stream::{Collected, End};

#[derive(Drop)]
pub struct Outcome<'a> {
    pub all: Collected,
    pub segment: &'a [u8],
    pub reassembly: &'a [u8],
    pub envelopes: &'a [u8],
    pub marks: &'a [usize],
}

// Held bytes, which stand at the front of a buffer.
fn held(buffer: &[u8], n: usize) -> Spelt<'_> {
    Spelt(buffer.get(..n).unwrap_or(buffer))
}

// The outputs are written whole. One check is over both buffers.
impl fmt::Display for Outcome<'_> {
    fn fmt<W: fmt::Write>(&self, f: &mut fmt::Formatter<W>) -> fmt::Result {
        let notes = self.all.notes;
        let complete = if notes.complete { "yes" } else { "no" };
        write!(
            f,
            "answers {} bytes {} complete {complete}",
            notes.answers, notes.bytes
        )?;
        write!(f, " envelopes {} marks", Spelt(self.envelopes))?;
        for mark in self.marks {
            write!(f, " {mark}")?;
        }
        match self.all.end {
            End::Refused(why, taken) => write!(f, " refused {} after {taken}", why.number())?,
            End::Held(filled, pending) => {
                write!(f, " held {filled} {}", held(self.segment, filled))?;
                write!(f, " and {pending} {}", held(self.reassembly, pending))?;
            }
        }
        let check = Running32::start()
            .more(self.segment)
            .more(self.reassembly)
            .finish();
        write!(f, " check {check:08x}")
    }
}
