// The header's fields: which are known, what they ask for, and where they stand.
#![tactic(auto, unfolding(crate::specs::Header::known_version, crate::specs::Header::known_opcode, crate::specs::Header::has_id, crate::specs::Header::has_warnings, crate::specs::Header::header_of))]

ghost use Rattle.std.specs.Prelude.{◌≡◌, ◌≤◌, leb, length};
ghost use Rattle.frame.specs.Header.{header_of, known_version, known_opcode, flag, has_id, has_warnings};
ghost use Rattle.frame.specs.Paper.{is_response, paper_header};

use crate::{Direction, Header, MAX_FLAGS, TRACING, WARNING};
use types::{inner, number};

pub(crate) fn known_version(v: u8) -> bool
    ensures { result ≡ known_version v }
{
    3 <= v && v <= 5
}

pub(crate) fn known_opcode(o: u8) -> bool
    ensures { result ≡ known_opcode o }
{
    o <= 0x10 && o != 0x04
}

pub(crate) fn has_flag(flags: u8, weight: u8) -> bool
    requires { 1 ≤ weight }
    ensures { result ≡ flag weight flags }
{
    flags / weight % 2 == 1
}

// A tracing id stands in a response that has the flag.
pub(crate) fn has_id(header: Header) -> bool
    ensures { result ≡ has_id (paper_header header) }
{
    match header.direction {
        Direction::Request => false,
        Direction::Response => has_flag(header.flags, TRACING),
    }
}

pub(crate) fn has_warnings(header: Header) -> bool
    ensures { result ≡ has_warnings (paper_header header) }
{
    has_flag(header.flags, WARNING)
}

fn direction_of(first: u8) -> Direction
    ensures { is_response result ≡ leb 128 first }
{
    if 128 <= first {
        Direction::Response
    } else {
        Direction::Request
    }
}

pub(crate) fn read_header(bytes: &[u8]) -> Header
    requires { 9 ≤ length bytes.now }
    ensures { paper_header result ≡ header_of bytes.now }
{
    let stream = inner::read_number(bytes, 2, 2) as u16;
    Header {
        version: bytes[0] % 128,
        direction: direction_of(bytes[0]),
        flags: bytes[1] % (MAX_FLAGS + 1),
        stream: number::signed16(stream),
        opcode: bytes[4],
    }
}
