// What the crates above share with this one and no caller is meant to use: here the room is asked for, not tested.
ghost use Rattle.std.specs.Prelude.{◌≡◌, ◌+◌, ◌≤◌, ◌<◌, ◌^◌, leb, length, true};
ghost use Rattle.types.specs.Number.{be, part, digits};
ghost use Rattle.types.specs.Write.{put, counted, lengths_fit, all_utf8, cut_by, strings_bytes, list_bytes, list_check};
ghost use Rattle.types.specs.Paper.{paper_writable};

use crate::MAX_SHORT;
use refusal::Refusal;

// n elements stand from at on in a slice of len; the second half tells a caller what that means.
pub fn room(len: usize, at: usize, n: usize) -> bool
    ensures { (result ≡ leb (at + n) len) × (result ≡ true → at + n ≤ len) }
{
    at <= len && n <= len - at
}

// The number of the n bytes from at on.
#[tactic(auto, unfolding(crate::specs::Number::be, crate::specs::Number::be_from))]
pub fn read_number(bytes: &[u8], at: usize, n: usize) -> u64
    requires { (n ≤ 8) × (at + n ≤ length bytes.now) }
    ensures { (result ≡ be (part bytes.now at n)) × (result < 256 ^ n) }
{
    let mut value: u64 = 0;
    for &b in &bytes[at..at + n] {
        value = value * 256 + b as u64;
    }
    value
}

// The n lowest bytes of x, from at on.
#[tactic(auto, using(crate::proofs::Put::put_digit, crate::proofs::Put::put_zero))]
pub fn put_number(out: &mut [u8], at: usize, n: usize, x: u64)
    requires { at + n ≤ length out.old }
    ensures { out.new ≡ put out.old at (digits n x) }
{
    let mut rest = x;
    for i in (0..n).rev() {
        out[at + i] = (rest % 256) as u8;
        rest /= 256;
    }
}

// All of src, from at on. Byte by byte: a copy by std would have an archive for C need `memcpy` from outside.
#[tactic(auto, unfolding(crate::specs::Write::put))]
pub fn put_bytes(out: &mut [u8], at: usize, src: &[u8])
    requires { at + length src.now ≤ length out.old }
    ensures { out.new ≡ put out.old at src.now }
{
    for (i, &b) in src.iter().enumerate() {
        out[at + i] = b;
    }
}

// All of src behind its count of n bytes, from at on.
#[tactic(auto, using(crate::proofs::Put::put_then, crate::proofs::BigEndian::length_digits), unfolding(crate::specs::Write::counted))]
pub fn put_counted(out: &mut [u8], at: usize, n: usize, src: &[u8])
    requires { at + (n + length src.now) ≤ length out.old }
    ensures { out.new ≡ put out.old at (counted n src.now) }
{
    put_number(out, at, n, src.len() as u64);
    put_bytes(out, at + n, src);
}

// The lengths are at most 65,535 each, and add up to sum.
fn lengths_fit(sum: usize, lens: &[usize]) -> bool
    ensures { result ≡ lengths_fit sum lens.now }
{
    let mut left = sum;
    for &n in lens {
        if MAX_SHORT < n || left < n {
            return false;
        }
        left -= n;
    }
    left == 0
}

// Each text by itself is UTF-8.
fn texts_fit(text: &[u8], lens: &[usize]) -> bool
    requires { lengths_fit (length text.now) lens.now ≡ true }
    ensures { result ≡ all_utf8 (cut_by text.now lens.now) }
{
    let mut at: usize = 0;
    for &n in lens {
        let end = at + n;
        if !utf8::is_utf8(&text[at..end]) {
            return false;
        }
        at = end;
    }
    true
}

// One text that is cut by a list of lengths may be written as a list of strings.
#[tactic(auto, unfolding(crate::specs::Write::list_check))]
pub fn check_list(text: &[u8], lens: &[usize]) -> Result<(), Refusal>
    ensures { paper_writable result ≡ list_check text.now lens.now }
{
    if MAX_SHORT < lens.len() || !lengths_fit(text.len(), lens) {
        return Err(Refusal::NotWritable);
    }
    if !texts_fit(text, lens) {
        return Err(Refusal::NotUtf8);
    }
    Ok(())
}

// The strings, one behind the other, from at on.
fn put_strings(out: &mut [u8], at: usize, text: &[u8], lens: &[usize])
    requires { (lengths_fit (length text.now) lens.now ≡ true) × (at + length (strings_bytes (cut_by text.now lens.now)) ≤ length out.old) }
    ensures { out.new ≡ put out.old at (strings_bytes (cut_by text.now lens.now)) }
{
    let mut to = at;
    let mut from: usize = 0;
    for &n in lens {
        let end = from + n;
        put_counted(out, to, 2, &text[from..end]);
        to += 2 + n;
        from = end;
    }
}

// Their count, and they.
pub fn put_list(out: &mut [u8], at: usize, text: &[u8], lens: &[usize])
    requires { (lengths_fit (length text.now) lens.now ≡ true) × (at + length (list_bytes (cut_by text.now lens.now)) ≤ length out.old) }
    ensures { out.new ≡ put out.old at (list_bytes (cut_by text.now lens.now)) }
{
    put_number(out, at, 2, lens.len() as u64);
    put_strings(out, at + 2, text, lens);
}
