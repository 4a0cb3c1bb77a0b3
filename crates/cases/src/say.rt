// What is written for a person: plain words and numbers. They gather in a page, and go out together when it is full or flushed.
ghost use Rattle.std.specs.Prelude.{◌≡◌, ◌≤◌};
ghost use Rattle.cases.specs.declared.say.TheConstants.{PAGE_LEN};

use frame::{Direction, Header};
use std::fmt;
use std::fmt::Write;
use std::io::{Print, Stdout};

pub const PAGE_LEN: usize = 4096;

// The bytes that gather, how many they are, and where they go out. After a write that failed nothing more is to be written.
#[derive(Clone, Copy)]
pub struct Page {
    bytes: [u8; PAGE_LEN],
    filled: usize,
    stdout: Stdout,
    ghost within: { filled ≤ PAGE_LEN },
}

impl Page {
    pub fn new(stdout: Stdout) -> Page
        ensures { result.filled ≡ 0 }
    {
        Page {
            bytes: [0; PAGE_LEN],
            filled: 0,
            stdout,
        }
    }

    // A call of its own, since it comes once in a page, and what writes a byte is short without it.
    #[inline(never)]
    pub fn flush(&mut self) -> fmt::Result
        ensures { self.new.filled ≡ 0 }
    {
        let due = self.filled;
        self.filled = 0;
        self.stdout
            .write_all(&self.bytes[..due])
            .map_err(|_| fmt::Error)
    }
}

impl Write for Page {
    // The count goes along as a number of its own, and is not stored and read again for each byte.
    fn write_str(&mut self, s: &str) -> fmt::Result {
        let mut filled = self.filled;
        for byte in s.as_bytes() {
            if filled == PAGE_LEN {
                self.filled = filled;
                self.flush()?;
                filled = 0;
            }
            self.bytes[filled] = *byte;
            filled += 1;
        }
        self.filled = filled;
        Ok(())
    }
}

fn digit(n: u8) -> &'static str {
    match n {
        0 => "0",
        1 => "1",
        2 => "2",
        3 => "3",
        4 => "4",
        5 => "5",
        6 => "6",
        7 => "7",
        8 => "8",
        9 => "9",
        10 => "a",
        11 => "b",
        12 => "c",
        13 => "d",
        14 => "e",
        _ => "f",
    }
}

// Two hexadecimal digits, and a number's decimal ones. They go out as they are, straight to the page where it is one: programs write little else, and std's
// formatter, which may have to pad, is dear for a byte or a digit.
fn write_hex<W: fmt::Write>(out: &mut W, byte: u8) -> fmt::Result {
    out.write_str(digit(byte / 16))?;
    out.write_str(digit(byte % 16))
}

pub fn write_decimal<W: fmt::Write>(out: &mut W, n: u64) -> fmt::Result {
    if 10 <= n {
        write_decimal(out, n / 10)?;
    }
    out.write_str(digit((n % 10) as u8))
}

// Bytes as a case spells them: runs of one byte, as in `00,03,61*3`, and `-` for none.
#[derive(Drop)]
pub struct Spelt<'a>(pub &'a [u8]);

impl fmt::Display for Spelt<'_> {
    fn fmt<W: fmt::Write>(&self, f: &mut fmt::Formatter<W>) -> fmt::Result {
        let bytes = self.0;
        if bytes.is_empty() {
            return f.write_str("-");
        }
        for (k, run) in bytes.chunk_by(|a, b| a == b).enumerate() {
            if 0 < k {
                f.write_str(",")?;
            }
            if let Some(byte) = run.first() {
                write_hex(f, *byte)?;
            }
            if 1 < run.len() {
                write!(f, "*{}", run.len())?;
            }
        }
        Ok(())
    }
}

// What an envelope's header says, but for the body's length.
pub fn write_fields<W: fmt::Write>(out: &mut W, header: Header) -> fmt::Result {
    write_decimal(out, header.version as u64)?;
    out.write_str(match header.direction {
        Direction::Request => " req ",
        Direction::Response => " rsp ",
    })?;
    write_hex(out, header.flags)?;
    out.write_str(if header.stream < 0 { " -" } else { " " })?;
    write_decimal(out, header.stream.unsigned_abs() as u64)?;
    out.write_str(" ")?;
    write_hex(out, header.opcode)
}

// The same within a text.
#[derive(Drop)]
pub struct Fields(pub Header);

impl fmt::Display for Fields {
    fn fmt<W: fmt::Write>(&self, f: &mut fmt::Formatter<W>) -> fmt::Result {
        write_fields(f, self.0)
    }
}
