// Writing an envelope at the front of an output: 15, then 13, then 14. A refusal leaves the output as it was.
ghost use Rattle.std.specs.Prelude.{◌≡◌, ◌+◌, ◌≤◌, length};
ghost use Rattle.types.specs.Paper.{paper_writable, paper_written};
ghost use Rattle.types.specs.Write.{Wrote, fine, put};
ghost use Rattle.frame.specs.Write.{id_part, warnings_part, header_bytes, envelope_bytes, max_body, id_fits, warning_fits, flags_fit, head_fits, first_byte, warnings_check, envelope_check};
ghost use Rattle.frame.specs.Paper.{paper_header, paper_content};
ghost use Rattle.frame.specs.Private.Inside.{capped, id_size, warnings_size, tail_size, Planned};

use crate::{
    Content, Direction, HEADER_LEN, Header, MAX_BODY, MAX_FLAGS, TRACING_ID_LEN, WARNING, head,
};
use refusal::Refusal;
use types::{inner, number};

// An id is there where it is to be written.
fn id_fits(header: Header, id_len: usize) -> bool
    ensures { result ≡ id_fits (paper_header header) id_len }
{
    !head::has_id(header) || id_len == TRACING_ID_LEN
}

// A request has no warnings.
fn warning_fits(header: Header) -> bool
    ensures { result ≡ warning_fits (paper_header header) }
{
    match header.direction {
        Direction::Request => !head::has_flag(header.flags, WARNING),
        Direction::Response => true,
    }
}

#[tactic(auto, unfolding(crate::specs::Write::flags_fit))]
fn flags_fit(header: Header, id_len: usize) -> bool
    ensures { result ≡ flags_fit (paper_header header) id_len }
{
    header.flags <= MAX_FLAGS && id_fits(header, id_len) && warning_fits(header)
}

#[tactic(auto, unfolding(crate::specs::Write::head_fits))]
fn head_fits(header: Header, id_len: usize) -> bool
    ensures { result ≡ head_fits (paper_header header) id_len }
{
    head::known_version(header.version)
        && head::known_opcode(header.opcode)
        && flags_fit(header, id_len)
}

// A sum that stays small: what goes past the largest declared length is one more than it.
#[tactic(auto, unfolding(crate::specs::Private::Inside::capped))]
fn plus(a: usize, b: usize) -> usize
    ensures { result ≡ capped (a + b) }
{
    a.saturating_add(b).min(MAX_BODY + 1)
}

fn id_size(header: Header, id: usize) -> usize
    ensures { result ≡ id_size (paper_header header) id }
{
    if head::has_id(header) { id } else { 0 }
}

#[tactic(auto, using(crate::proofs::Capped::capped_plus, crate::proofs::Capped::capped_small), unfolding(crate::specs::Private::Inside::warnings_size))]
fn warnings_size(header: Header, text: usize, count: usize) -> usize
    ensures { result ≡ capped (warnings_size (paper_header header) text count) }
{
    if head::has_warnings(header) {
        plus(plus(plus(2, count), count), text)
    } else {
        0
    }
}

// The declared length, by the lengths of what is given.
#[tactic(auto, using(crate::proofs::Capped::capped_plus), unfolding(crate::specs::Private::Inside::tail_size))]
fn tail_size(header: Header, id: usize, text: usize, count: usize, body: usize) -> usize
    ensures { result ≡ capped (tail_size (paper_header header) id text count body) }
{
    let warnings = warnings_size(header, text, count);
    plus(plus(warnings, id_size(header, id)), body)
}

#[tactic(auto, unfolding(crate::specs::Write::warnings_check))]
fn check_warnings(header: Header, text: &[u8], lens: &[usize]) -> Result<(), Refusal>
    ensures { paper_writable result ≡ warnings_check (paper_header header) text.now lens.now }
{
    if head::has_warnings(header) {
        inner::check_list(text, lens)
    } else {
        Ok(())
    }
}

fn first_byte(header: Header) -> u8
    requires { header.version ≤ 127 }
    ensures { result ≡ first_byte (paper_header header) }
{
    match header.direction {
        Direction::Request => header.version,
        Direction::Response => header.version + 128,
    }
}

// The header of an envelope with n bytes behind it.
fn put_header(out: &mut [u8], header: Header, n: usize)
    requires { (9 ≤ length out.old) × (header.version ≤ 127) }
    ensures { out.new ≡ put out.old 0 (header_bytes (paper_header header) n) }
{
    // Flag 01 is cleared.
    let flags = header.flags / 2 * 2;
    let mut bytes = [first_byte(header), flags, 0, 0, header.opcode, 0, 0, 0, 0];
    inner::put_number(&mut bytes, 2, 2, number::bits16(header.stream) as u64);
    inner::put_number(&mut bytes, 5, 4, n as u64);
    inner::put_bytes(out, 0, &bytes);
}

// The tracing id, where it is written; the position behind it.
#[tactic(auto, using(crate::proofs::Checked::id_is, crate::proofs::Laid::part_none), unfolding(crate::specs::Write::id_part))]
fn put_id(out: &mut [u8], at: usize, header: Header, id: &[u8]) -> usize
    requires { at + length (id_part (paper_header header) id.now) ≤ length out.old }
    ensures { (result ≡ at + length (id_part (paper_header header) id.now)) × (out.new ≡ put out.old at (id_part (paper_header header) id.now)) }
{
    if head::has_id(header) {
        inner::put_bytes(out, at, id);
        return at + id.len();
    }
    at
}

// The warnings, where they are written; the position behind them.
#[tactic(auto, using(types::proofs::Cut::writes, types::proofs::Cut::list_length, crate::proofs::Checked::check_is, crate::proofs::Checked::list_is, crate::proofs::Laid::part_there, crate::proofs::Laid::part_none))]
fn put_warnings(out: &mut [u8], at: usize, header: Header, text: &[u8], lens: &[usize]) -> usize
    requires { (warnings_check (paper_header header) text.now lens.now ≡ fine) × (at + length (warnings_part (paper_header header) text.now lens.now) ≤ length out.old) }
    ensures { (result ≡ at + length (warnings_part (paper_header header) text.now lens.now)) × (out.new ≡ put out.old at (warnings_part (paper_header header) text.now lens.now)) }
{
    if head::has_warnings(header) {
        inner::put_list(out, at, text, lens);
        return at + 2 + 2 * lens.len() + text.len();
    }
    at
}

// The whole envelope, where there is room for it.
fn put_envelope(
    out: &mut [u8],
    header: Header,
    content: Content,
    tail: usize,
) -> Result<usize, Refusal>
    requires { Planned (paper_header header) (paper_content content) tail }
    ensures { Wrote fine out.old 0 (envelope_bytes (paper_header header) (paper_content content.entry)) (paper_written result) out.new }
{
    let size = HEADER_LEN + tail;
    if !inner::room(out.len(), 0, size) {
        return Err(Refusal::OutputTooShort);
    }
    put_header(out, header, tail);
    let after_id = put_id(out, HEADER_LEN, header, content.id);
    let start = put_warnings(out, after_id, header, content.text, content.lens);
    inner::put_bytes(out, start, content.body);
    Ok(size)
}

// An envelope with these fields. The id is written where the header has one, the warnings where it has the flag, and what is not written is not looked at.
#[tactic(auto, using(types::proofs::Put::wrote_fine, types::proofs::Put::wrote_against, crate::proofs::Capped::capped_within, crate::proofs::Capped::capped_past, crate::proofs::Checked::head_unfit, crate::proofs::Checked::body_long, crate::proofs::Checked::warnings_unfit, crate::proofs::Checked::all_fit))]
pub fn write_envelope(out: &mut [u8], header: Header, content: Content) -> Result<usize, Refusal>
    ensures { Wrote (envelope_check (paper_header header) (paper_content content.entry)) out.old 0 (envelope_bytes (paper_header header) (paper_content content.entry)) (paper_written result) out.new }
{
    let Content {
        id,
        text,
        lens,
        body,
    } = content;
    if !head_fits(header, id.len()) {
        return Err(Refusal::NotWritable);
    }
    let tail = tail_size(header, id.len(), text.len(), lens.len(), body.len());
    if MAX_BODY < tail {
        return Err(Refusal::NotWritable);
    }
    check_warnings(header, text, lens)?;
    put_envelope(out, header, content, tail)
}
