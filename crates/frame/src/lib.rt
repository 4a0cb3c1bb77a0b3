// Envelopes of the native protocol (the v5 document, section 2): measured, read and written in lent bytes.
// `specs/Paper.antt` says what each case of an answer means.
#![tactic(auto)]

use types::{Place, Walk};

mod head;
pub mod read;
pub mod write;

pub const HEADER_LEN: usize = 9;

pub const TRACING_ID_LEN: usize = 16;

// The largest declared length that is written: the document's 256 MiB.
pub const MAX_BODY: usize = 268_435_456;

// The weights of the flags, and the largest byte of flags that has no other.
pub const COMPRESSION: u8 = 0x01;

pub const TRACING: u8 = 0x02;

pub const CUSTOM_PAYLOAD: u8 = 0x04;

pub const WARNING: u8 = 0x08;

pub const BETA: u8 = 0x10;

pub const MAX_FLAGS: u8 = 0x1f;

#[derive(Clone, Copy, Debug, PartialEq, Eq)]
pub enum Direction {
    Request,
    Response,
}

// What a header says, but for the body's length. Version and opcode are any numbers, and a writer refuses unknown ones.
#[derive(Clone, Copy, Debug, PartialEq, Eq)]
pub struct Header {
    pub version: u8,
    pub direction: Direction,
    pub flags: u8,
    pub stream: i16,
    pub opcode: u8,
}

// What an envelope is to hold: a tracing id, warnings (the texts that the lengths cut the one text into), and the rest of its body.
#[derive(Clone, Copy, Debug, PartialEq, Eq)]
pub struct Content<'a> {
    pub id: &'a [u8],
    pub text: &'a [u8],
    pub lens: &'a [usize],
    pub body: &'a [u8],
}

// An envelope as it was read. Its places are counted from its first byte: they are the same wherever it stands. If it is traced, its tracing id stands
// behind the header. Its warnings are walked along as any strings are, by `types::read::next_string`.
#[derive(Clone, Copy, Debug, PartialEq, Eq)]
pub struct Envelope {
    pub size: usize,
    pub header: Header,
    pub traced: bool,
    pub warnings: Walk,
    pub body: Place,
}
