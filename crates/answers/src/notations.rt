// The cases that have one word, some bytes.
use crate::envelope::Texts;
use crate::outcome::OUTPUT_LEN;
use crate::{envelope, outcome, segments};
use cases::room::filled;
use cases::say::{Page, Spelt};
use refusal::Refusal;
use std::fmt;
use std::fmt::{Display, Write};
use types::{Place, Walk, read, write};

fn value<T: Display + Drop>(page: &mut Page, answer: Result<(T, usize), Refusal>) -> fmt::Result {
    match answer {
        Ok((x, next)) => write!(page, "value {x} next {next}"),
        Err(why) => outcome::refused(page, why),
    }
}

fn strings(page: &mut Page, bytes: &[u8], answer: Result<(Walk, usize), Refusal>) -> fmt::Result {
    match answer {
        Ok((walk, next)) => {
            let texts = Texts { bytes, walk };
            write!(page, "strings {texts} next {next}")
        }
        Err(why) => outcome::refused(page, why),
    }
}

fn part(page: &mut Page, bytes: &[u8], place: Place, next: usize) -> fmt::Result {
    let part = Spelt(types::part(bytes, place));
    write!(page, "part {part} next {next}")
}

fn bytes_or_null(page: &mut Page, bytes: &[u8]) -> fmt::Result {
    match read::read_bytes(bytes, 0) {
        Ok((Some(place), next)) => part(page, bytes, place, next),
        Ok((None, next)) => write!(page, "null next {next}"),
        Err(why) => outcome::refused(page, why),
    }
}

fn short_bytes(page: &mut Page, bytes: &[u8]) -> fmt::Result {
    match read::read_short_bytes(bytes, 0) {
        Ok((place, next)) => part(page, bytes, place, next),
        Err(why) => outcome::refused(page, why),
    }
}

// What is written at the front of an output.
fn shown<F: FnOnce(&mut [u8]) -> Result<usize, Refusal>>(page: &mut Page, write: F) -> fmt::Result
    requires { F.IsAlwaysCallable write }
{
    let mut output: [u8; OUTPUT_LEN] = filled(0);
    let answer = write(&mut output);
    outcome::written(page, answer, &output)
}

pub fn answer(page: &mut Page, name: &[u8], bytes: &[u8]) -> Option<fmt::Result> {
    let answered = match name {
        b"crc24" => write!(page, "{:06x}", crc::crc24(bytes)),
        b"crc32" => write!(page, "{:08x}", crc::crc32(bytes)),
        b"size" => envelope::size(page, bytes),
        b"parse" => envelope::parse(page, bytes),
        b"int" => value(page, read::read_int(bytes, 0)),
        b"long" => value(page, read::read_long(bytes, 0)),
        b"list" => strings(page, bytes, read::read_string_list(bytes, 0)),
        b"bytes" => bytes_or_null(page, bytes),
        b"shortbytes" => short_bytes(page, bytes),
        b"wstring" => shown(page, |output| write::write_string(output, 0, bytes)),
        b"wbytes" => shown(page, |output| write::write_bytes(output, 0, bytes)),
        b"wshortbytes" => shown(page, |output| write::write_short_bytes(output, 0, bytes)),
        b"wnull" if bytes.is_empty() => shown(page, |output| write::write_null(output, 0)),
        b"piece" => segments::piece(page, bytes),
        _ => return None,
    };
    Some(answered)
}
