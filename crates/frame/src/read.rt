// Reading the envelope at the front of some bytes, and measuring it.
#![tactic(auto, unfolding(crate::specs::Envelope::declared, crate::specs::Envelope::sized, crate::specs::Envelope::size_of, crate::specs::Envelope::after_id, crate::specs::Envelope::warnings_at, crate::specs::Envelope::within, crate::specs::Envelope::inside, crate::specs::Envelope::envelope, crate::specs::Envelope::id_in, crate::specs::Envelope::body_in))]

ghost use Rattle.std.specs.Prelude.{◌≡◌, cond, ◌≤◌, pos, neg_ℤ, length};
ghost use Rattle.refusal.specs.Refusal.{number_of};
ghost use Rattle.types.specs.Paper.{strings_of, paper_strings};
ghost use Rattle.frame.specs.Header.{id_length};
ghost use Rattle.frame.specs.Envelope.{size_of, size_number, after_id, warnings_at, envelope_with, read_as, inside, envelope, id_in, body_in};
ghost use Rattle.frame.specs.Paper.{paper_header, paper_envelope, paper_size, paper_reading};
ghost use Rattle.frame.specs.Private.Inside.{paper_whole};

use crate::{Envelope, HEADER_LEN, Header, TRACING_ID_LEN, head};
use refusal::Refusal;
use types::{Place, Walk, inner, read};

// How long the envelope is, with its header, if it is there whole: the tests go as far as the version.
pub fn envelope_size(bytes: &[u8]) -> Result<Option<usize>, Refusal>
    ensures { paper_size result ≡ size_of bytes.now }
{
    if bytes.len() < HEADER_LEN {
        return Ok(None);
    }
    let declared = inner::read_number(bytes, 5, 4);
    if 0x8000_0000 <= declared {
        return Err(Refusal::NegativeLength);
    }
    let size = HEADER_LEN + declared as usize;
    if bytes.len() < size {
        return Ok(None);
    }
    if !head::known_version(bytes[0] % 128) {
        return Err(Refusal::UnknownVersion);
    }
    Ok(Some(size))
}

fn minus(e: Refusal) -> i64
    ensures { result ≡ neg_ℤ (pos (number_of e)) }
{
    -(e.number() as i64)
}

// The same as one number: the whole length, 0 where the envelope is incomplete, minus the number of a refusal.
pub fn check_envelope_size(bytes: &[u8]) -> i64
    ensures { result ≡ size_number (size_of bytes.now) }
{
    match envelope_size(bytes) {
        Ok(None) => 0,
        Ok(Some(n)) => n as i64,
        Err(e) => minus(e),
    }
}

fn id_len(traced: bool) -> usize
    ensures { result ≡ cond traced id_length 0 }
{
    if traced { TRACING_ID_LEN } else { 0 }
}

// Where the body goes on behind the tracing id.
fn after_id(header: Header) -> usize
    ensures { result ≡ after_id (paper_header header) }
{
    HEADER_LEN + id_len(head::has_id(header))
}

// The warnings from a position on, none where the header has no flag for them, and the position behind them.
fn read_warnings(bytes: &[u8], header: Header, at: usize) -> Result<(Walk, usize), Refusal>
    ensures { paper_strings result ≡ warnings_at bytes.now (paper_header header) at }
{
    if head::has_warnings(header) {
        read::read_string_list(bytes, at)
    } else {
        Ok((Walk { left: 0, at }, at))
    }
}

// An envelope of this size whose body goes on at a position, up to the end.
fn envelope_with(size: usize, header: Header, warnings: Walk, at: usize) -> Envelope
    requires { at ≤ size }
    ensures { paper_envelope result ≡ envelope_with size (paper_header header) (strings_of warnings) at }
{
    Envelope {
        size,
        header,
        traced: head::has_id(header),
        warnings,
        body: Place {
            start: at,
            len: size - at,
        },
    }
}

// From where the tracing id ends.
#[tactic(auto, using(crate::proofs::Ends::warnings_end))]
fn read_rest(bytes: &[u8], header: Header, at: usize) -> Result<Envelope, Refusal>
    requires { at ≤ length bytes.now }
    ensures { paper_whole result ≡ read_as (length bytes.now) (paper_header header) (warnings_at bytes.now (paper_header header) at) }
{
    let (warnings, start) = read_warnings(bytes, header, at)?;
    Ok(envelope_with(bytes.len(), header, warnings, start))
}

// The bytes of one envelope, no more and no fewer.
fn read_inside(bytes: &[u8]) -> Result<Envelope, Refusal>
    requires { 9 ≤ length bytes.now }
    ensures { paper_whole result ≡ inside bytes.now }
{
    let header = head::read_header(bytes);
    if !head::known_opcode(header.opcode) {
        return Err(Refusal::UnknownOpcode);
    }
    let at = after_id(header);
    if bytes.len() < at {
        return Err(Refusal::TracingIdCutShort);
    }
    read_rest(bytes, header, at)
}

// The envelope at the front of the bytes, if it is there whole. What stands behind its declared end is not looked at.
pub fn read_envelope(bytes: &[u8]) -> Result<Option<Envelope>, Refusal>
    ensures { paper_reading result ≡ envelope bytes.now }
{
    let Some(size) = envelope_size(bytes)? else {
        return Ok(None);
    };
    let whole = read_inside(&bytes[..size])?;
    Ok(Some(whole))
}

// The body of an envelope that begins with the first of the bytes, without tracing id and warnings.
pub fn body<'a>(bytes: &'a [u8], envelope: Envelope) -> &'a [u8]
    ensures { result.now ≡ body_in bytes.now (paper_envelope envelope) }
{
    types::part(bytes, envelope.body)
}

// Its tracing id, and an empty part where it has none.
pub fn tracing_id<'a>(bytes: &'a [u8], envelope: Envelope) -> &'a [u8]
    ensures { result.now ≡ id_in bytes.now (paper_envelope envelope) }
{
    let place = Place {
        start: HEADER_LEN,
        len: id_len(envelope.traced),
    };
    types::part(bytes, place)
}
