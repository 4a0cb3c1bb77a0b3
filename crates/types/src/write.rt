// Writing a notation at a position: 15, then 13, then 14. The answer is the position behind what was written; a refusal leaves the output as it was.
ghost use Rattle.std.specs.Prelude.{◌≡◌, ◌+◌, ◌≤◌};
ghost use Rattle.std.proofs.Math.Option.{none, some};
ghost use Rattle.std.specs.Int.{w32, w64};
ghost use Rattle.std.proofs.Common.{of_z};
ghost use Rattle.types.specs.Number.{digits};
ghost use Rattle.types.specs.Write.{Wrote, fine, counted, count_check, text_check, bytes_bytes, bytes_check, max_short, max_int, cut_by, list_bytes, list_check};
ghost use Rattle.types.specs.Paper.{paper_writable, paper_written};

use crate::{MAX_INT, MAX_SHORT, inner, number};
use refusal::Refusal;

// A number of n bytes.
#[tactic(auto, using(crate::proofs::Put::wrote_all, crate::proofs::Put::wrote_none, crate::proofs::BigEndian::length_digits))]
fn write_number(out: &mut [u8], at: usize, n: usize, x: u64) -> Result<usize, Refusal>
    ensures { Wrote fine out.old at (digits n x) (paper_written result) out.new }
{
    if !inner::room(out.len(), at, n) {
        return Err(Refusal::OutputTooShort);
    }
    inner::put_number(out, at, n, x);
    Ok(at + n)
}

pub fn write_byte(out: &mut [u8], at: usize, x: u8) -> Result<usize, Refusal>
    ensures { Wrote fine out.old at (digits 1 x) (paper_written result) out.new }
{
    write_number(out, at, 1, x as u64)
}

pub fn write_short(out: &mut [u8], at: usize, x: u16) -> Result<usize, Refusal>
    ensures { Wrote fine out.old at (digits 2 x) (paper_written result) out.new }
{
    write_number(out, at, 2, x as u64)
}

pub fn write_int(out: &mut [u8], at: usize, x: i32) -> Result<usize, Refusal>
    ensures { Wrote fine out.old at (digits 4 (of_z w32 x)) (paper_written result) out.new }
{
    write_number(out, at, 4, number::bits32(x) as u64)
}

pub fn write_long(out: &mut [u8], at: usize, x: i64) -> Result<usize, Refusal>
    ensures { Wrote fine out.old at (digits 8 (of_z w64 x)) (paper_written result) out.new }
{
    write_number(out, at, 8, number::bits64(x))
}

// Some bytes as they are.
fn write_run(out: &mut [u8], at: usize, bytes: &[u8]) -> Result<usize, Refusal>
    ensures { Wrote fine out.old at bytes.now (paper_written result) out.new }
{
    if !inner::room(out.len(), at, bytes.len()) {
        return Err(Refusal::OutputTooShort);
    }
    inner::put_bytes(out, at, bytes);
    Ok(at + bytes.len())
}

// Some bytes behind their count of n bytes.
#[tactic(auto, using(crate::proofs::Put::wrote_all, crate::proofs::Put::wrote_none, crate::proofs::Put::length_counted))]
fn write_counted(out: &mut [u8], at: usize, n: usize, bytes: &[u8]) -> Result<usize, Refusal>
    requires { n ≤ 8 }
    ensures { Wrote fine out.old at (counted n bytes.now) (paper_written result) out.new }
{
    let size = n + bytes.len();
    if !inner::room(out.len(), at, size) {
        return Err(Refusal::OutputTooShort);
    }
    inner::put_counted(out, at, n, bytes);
    Ok(at + size)
}

pub fn write_uuid(out: &mut [u8], at: usize, id: [u8; 16]) -> Result<usize, Refusal>
    ensures { Wrote fine out.old at id (paper_written result) out.new }
{
    write_run(out, at, &id)
}

pub fn write_short_bytes(out: &mut [u8], at: usize, bytes: &[u8]) -> Result<usize, Refusal>
    ensures { Wrote (count_check max_short bytes.now) out.old at (counted 2 bytes.now) (paper_written result) out.new }
{
    if MAX_SHORT < bytes.len() {
        return Err(Refusal::NotWritable);
    }
    write_counted(out, at, 2, bytes)
}

// [bytes], unless they are null: their count, and they.
pub fn write_bytes(out: &mut [u8], at: usize, bytes: &[u8]) -> Result<usize, Refusal>
    ensures { Wrote (bytes_check (some bytes.now)) out.old at (bytes_bytes (some bytes.now)) (paper_written result) out.new }
{
    if MAX_INT < bytes.len() {
        return Err(Refusal::NotWritable);
    }
    write_counted(out, at, 4, bytes)
}

// [bytes] that are null: the count -1.
pub fn write_null(out: &mut [u8], at: usize) -> Result<usize, Refusal>
    ensures { Wrote (bytes_check none) out.old at (bytes_bytes none) (paper_written result) out.new }
{
    write_number(out, at, 4, 0xffff_ffff)
}

// A text of at most limit bytes.
fn check_text(text: &[u8], limit: usize) -> Result<(), Refusal>
    ensures { paper_writable result ≡ text_check limit text.now }
{
    if limit < text.len() {
        return Err(Refusal::NotWritable);
    }
    if !utf8::is_utf8(text) {
        return Err(Refusal::NotUtf8);
    }
    Ok(())
}

fn write_text(
    out: &mut [u8],
    at: usize,
    n: usize,
    limit: usize,
    text: &[u8],
) -> Result<usize, Refusal>
    requires { n ≤ 8 }
    ensures { Wrote (text_check limit text.now) out.old at (counted n text.now) (paper_written result) out.new }
{
    check_text(text, limit)?;
    write_counted(out, at, n, text)
}

pub fn write_string(out: &mut [u8], at: usize, text: &[u8]) -> Result<usize, Refusal>
    ensures { Wrote (text_check max_short text.now) out.old at (counted 2 text.now) (paper_written result) out.new }
{
    write_text(out, at, 2, MAX_SHORT, text)
}

pub fn write_long_string(out: &mut [u8], at: usize, text: &[u8]) -> Result<usize, Refusal>
    ensures { Wrote (text_check max_int text.now) out.old at (counted 4 text.now) (paper_written result) out.new }
{
    write_text(out, at, 4, MAX_INT, text)
}

// [string list]: the texts that the lengths cut the one text into.
#[tactic(auto, using(crate::proofs::Put::wrote_all, crate::proofs::Put::wrote_none, crate::proofs::Put::wrote_fine, crate::proofs::Cut::writes, crate::proofs::Cut::list_length))]
pub fn write_string_list(
    out: &mut [u8],
    at: usize,
    text: &[u8],
    lens: &[usize],
) -> Result<usize, Refusal>
    ensures { Wrote (list_check text.now lens.now) out.old at (list_bytes (cut_by text.now lens.now)) (paper_written result) out.new }
{
    inner::check_list(text, lens)?;
    let size = 2 + 2 * lens.len() + text.len();
    if !inner::room(out.len(), at, size) {
        return Err(Refusal::OutputTooShort);
    }
    inner::put_list(out, at, text, lens);
    Ok(at + size)
}
