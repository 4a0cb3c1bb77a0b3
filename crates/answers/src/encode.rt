// The case that writes an envelope.
use crate::outcome::OUTPUT_LEN;
use crate::{MOST, outcome};
use cases::room::filled;
use cases::say::Page;
use cases::words;
use frame::{Content, Direction, Header, write};
use std::fmt;

fn direction(word: &[u8]) -> Option<Direction> {
    match word {
        b"req" => Some(Direction::Request),
        b"rsp" => Some(Direction::Response),
        _ => None,
    }
}

fn header(line: &[u8]) -> Option<Header> {
    Some(Header {
        version: u8::try_from(words::number_at(line, 1)?).ok()?,
        direction: direction(words::word(line, 2)?)?,
        flags: words::hex_byte(words::word(line, 3)?)?,
        stream: i16::try_from(words::integer(words::word(line, 4)?)?).ok()?,
        opcode: words::hex_byte(words::word(line, 5)?)?,
    })
}

pub fn answer(page: &mut Page, line: &[u8], body: &[u8]) -> Option<fmt::Result> {
    let header = header(line)?;
    let mut id: [u8; MOST] = filled(0);
    let mut text: [u8; MOST] = filled(0);
    let mut lens: [usize; MOST] = filled(0);
    let mut output: [u8; OUTPUT_LEN] = filled(0);
    let id = words::items_at(line, 6, &mut id)?;
    let text = words::items_at(line, 7, &mut text)?;
    let lens = words::items_at(line, 8, &mut lens)?;
    let content = Content {
        id,
        text,
        lens,
        body,
    };
    let answer = write::write_envelope(&mut output, header, content);
    Some(outcome::written(page, answer, &output))
}
