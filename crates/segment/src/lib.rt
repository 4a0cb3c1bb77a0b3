// A segment's header in its two forms (the v5 document, Framing), fields and bytes, and the payload behind it.
#![tactic(auto)]

ghost use Rattle.std.specs.Prelude.{◌≡◌, cond, ◌≤◌, length};
ghost use Rattle.segment.specs.Header.{number_length, header_length, self_weight, uncompressed_of, uncompressed_part, fields_of, header_number};
ghost use Rattle.segment.specs.Segment.{checked, header_at, behind, payload_at};
ghost use Rattle.segment.specs.Paper.{paper_form, paper_header, paper_read_header, paper_read_payload};

use crc::{crc24, crc32};
use refusal::Refusal;

pub mod inner;

// The longest payload, and one more: lengths have 17 bits.
pub const MAX_PAYLOAD: usize = 131_071;

pub const LENGTHS: u64 = 131_072;

pub const CHECK_LEN: usize = 3;

pub const TRAILER_LEN: usize = 4;

// Fixed for a connection, and not to be told from the bytes.
#[derive(Clone, Copy, Debug, PartialEq, Eq)]
pub enum Form {
    Short,
    Long,
}

// What a header says. The short form has no length before compression.
#[derive(Clone, Copy, Debug, PartialEq, Eq)]
pub struct Header {
    pub payload: u32,
    pub uncompressed: u32,
    pub self_contained: bool,
}

// How many bytes of a header are its number; the others are the check of these.
pub fn number_len(form: Form) -> usize
    ensures { result ≡ number_length (paper_form form) }
{
    match form {
        Form::Short => 3,
        Form::Long => 5,
    }
}

pub fn header_len(form: Form) -> usize
    ensures { result ≡ header_length (paper_form form) }
{
    match form {
        Form::Short => 6,
        Form::Long => 8,
    }
}

// The weight of the bit that says self-contained.
fn self_weight(form: Form) -> u64
    ensures { result ≡ self_weight (paper_form form) }
{
    match form {
        Form::Short => 0x2_0000,
        Form::Long => 0x4_0000_0000,
    }
}

// The fields of a header's number; bits that are unused are ignored.
#[tactic(auto, unfolding(crate::specs::Header::fields_of))]
pub fn fields(form: Form, x: u64) -> Header
    ensures { paper_header result ≡ fields_of (paper_form form) x }
{
    let payload = (x % LENGTHS) as u32;
    let weight = self_weight(form);
    let self_contained = x / weight % 2 == 1;
    let uncompressed = uncompressed_of(form, x);
    Header {
        payload,
        uncompressed,
        self_contained,
    }
}

fn uncompressed_of(form: Form, x: u64) -> u32
    ensures { result ≡ uncompressed_of (paper_form form) x }
{
    match form {
        Form::Short => 0,
        Form::Long => (x / LENGTHS % LENGTHS) as u32,
    }
}

fn uncompressed_part(form: Form, n: u32) -> u64
    ensures { result ≡ uncompressed_part (paper_form form) n }
{
    match form {
        Form::Short => 0,
        Form::Long => n as u64 % LENGTHS * LENGTHS,
    }
}

fn self_part(form: Form, self_contained: bool) -> u64
    ensures { result ≡ cond self_contained (self_weight (paper_form form)) 0 }
{
    if self_contained { self_weight(form) } else { 0 }
}

// The number of a header with these fields; unused bits are 0, and of a length the lowest 17 bits count.
#[tactic(auto, unfolding(crate::specs::Header::header_number))]
pub fn header_number(form: Form, header: Header) -> u64
    ensures { result ≡ header_number (paper_form form) (paper_header header) }
{
    let payload = header.payload as u64 % LENGTHS;
    let uncompressed = uncompressed_part(form, header.uncompressed);
    let contained = self_part(form, header.self_contained);
    payload + uncompressed + contained
}

// The check behind a header's number is that of its bytes.
fn check_holds(form: Form, bytes: &[u8]) -> bool
    requires { header_length (paper_form form) ≤ length bytes.now }
    ensures { result ≡ checked (paper_form form) bytes.now }
{
    let n = number_len(form);
    let read = inner::read_number(bytes, n, CHECK_LEN);
    let computed = crc24(&bytes[..n]);
    read == computed as u64
}

// The header at the front of the bytes, once it is complete, judged: 2, then 3.
#[tactic(auto, unfolding(crate::specs::Segment::header_at))]
pub fn read_header(form: Form, bytes: &[u8]) -> Result<Option<Header>, Refusal>
    ensures { paper_read_header result ≡ header_at (paper_form form) bytes.now }
{
    if bytes.len() < header_len(form) {
        return Ok(None);
    }
    if !check_holds(form, bytes) {
        return Err(Refusal::HeaderCheckDiffers);
    }
    let header = fields(form, inner::read_number(bytes, 0, number_len(form)));
    if header.uncompressed != 0 {
        return Err(Refusal::PayloadCompressed);
    }
    Ok(Some(header))
}

// Whether the payload behind a header that has passed is complete, judged: 5.
#[tactic(auto, unfolding(crate::specs::Segment::payload_at))]
pub fn read_payload(form: Form, bytes: &[u8], header: Header) -> Result<bool, Refusal>
    ensures { paper_read_payload result (behind (paper_form form) bytes.now (paper_header header)) ≡ payload_at (paper_form form) bytes.now (paper_header header) }
{
    let start = header_len(form);
    let end = start + header.payload as usize;
    if bytes.len() < end + TRAILER_LEN {
        return Ok(false);
    }
    let computed = crc32(&bytes[start..end]);
    if inner::read_number(bytes, end, TRAILER_LEN) != computed as u64 {
        return Err(Refusal::PayloadCheckDiffers);
    }
    Ok(true)
}
