// Envelopes at the front of some bytes.
use crate::outcome;
use cases::say::{Fields, Page, Spelt};
use frame::{Envelope, read};
use std::fmt;
use std::fmt::Write;
use types::{Walk, Walked};

// How many texts a walk has, and these.
#[derive(Drop)]
pub struct Texts<'a> {
    pub bytes: &'a [u8],
    pub walk: Walk,
}

impl fmt::Display for Texts<'_> {
    fn fmt<W: fmt::Write>(&self, f: &mut fmt::Formatter<W>) -> fmt::Result {
        let mut walk = self.walk;
        write!(f, "{}", walk.left)?;
        for _ in 0..self.walk.left {
            let Ok(Walked::Text(place, rest)) = types::read::next_string(self.bytes, walk) else {
                break;
            };
            write!(f, " {}", Spelt(types::part(self.bytes, place)))?;
            walk = rest;
        }
        Ok(())
    }
}

// What is said of an envelope that begins with the first of the bytes.
#[derive(Drop)]
pub struct Whole<'a> {
    pub bytes: &'a [u8],
    pub envelope: Envelope,
}

impl fmt::Display for Whole<'_> {
    fn fmt<W: fmt::Write>(&self, f: &mut fmt::Formatter<W>) -> fmt::Result {
        let bytes = self.bytes;
        let envelope = self.envelope;
        let fields = Fields(envelope.header);
        let id = Spelt(read::tracing_id(bytes, envelope));
        let warnings = Texts {
            bytes,
            walk: envelope.warnings,
        };
        let body = Spelt(read::body(bytes, envelope));
        write!(f, "{fields} id {id} warnings {warnings} body {body}")
    }
}

pub fn size(page: &mut Page, bytes: &[u8]) -> fmt::Result {
    match read::envelope_size(bytes) {
        Ok(None) => write!(page, "incomplete"),
        Ok(Some(n)) => write!(page, "whole {n}"),
        Err(why) => outcome::refused(page, why),
    }
}

pub fn parse(page: &mut Page, bytes: &[u8]) -> fmt::Result {
    match read::read_envelope(bytes) {
        Ok(None) => write!(page, "incomplete"),
        Ok(Some(envelope)) => {
            let size = envelope.size;
            let whole = Whole { bytes, envelope };
            write!(page, "whole {size} {whole}")
        }
        Err(why) => outcome::refused(page, why),
    }
}
