// Reading a notation at a position: its value and the position behind it, or why there is none.
#![tactic(auto, unfolding(crate::specs::Read::number_at, crate::specs::Read::signed_at, crate::specs::Read::run_at, crate::specs::Read::text_at, crate::specs::Read::short_bytes_at, crate::specs::Read::string_at, crate::specs::Read::count_at, crate::specs::Read::long_string_at, crate::specs::Read::bytes_at, crate::specs::Read::listed, crate::specs::Read::string_list_at))]

ghost use Rattle.std.specs.Prelude.{◌≡◌, ◌≤◌, ◌<◌, ◌^◌, IfOk};
ghost use Rattle.types.specs.Read.{number_at, byte_at, short_at, int_at, long_at, count_at, run_at, text_at, uuid_at, string_at, long_string_at, short_bytes_at, bytes_at, strings_at, string_list_at, step_at};
ghost use Rattle.types.specs.Paper.{paper_number, paper_part, paper_bytes, paper_strings, paper_walked};
ghost use Rattle.types.specs.Private.Inside.{paper_count, paper_end, end_of};

use crate::{Place, Walk, Walked, inner, number};
use refusal::Refusal;

// An unsigned number of n bytes.
fn read_number(bytes: &[u8], at: usize, n: usize) -> Result<(u64, usize), Refusal>
    requires { n ≤ 8 }
    ensures read { paper_number result ≡ number_at n bytes.now at }
    ensures small { IfOk result (λ r. r.0 < 256 ^ n) }
{
    if !inner::room(bytes.len(), at, n) {
        return Err(Refusal::PastEnd);
    }
    Ok((inner::read_number(bytes, at, n), at + n))
}

pub fn read_byte(bytes: &[u8], at: usize) -> Result<(u8, usize), Refusal>
    ensures { paper_number result ≡ byte_at bytes.now at }
{
    let (x, next) = read_number(bytes, at, 1)?;
    Ok((x as u8, next))
}

pub fn read_short(bytes: &[u8], at: usize) -> Result<(u16, usize), Refusal>
    ensures { paper_number result ≡ short_at bytes.now at }
{
    let (x, next) = read_number(bytes, at, 2)?;
    Ok((x as u16, next))
}

pub fn read_int(bytes: &[u8], at: usize) -> Result<(i32, usize), Refusal>
    ensures { paper_number result ≡ int_at bytes.now at }
{
    let (x, next) = read_number(bytes, at, 4)?;
    Ok((number::signed32(x as u32), next))
}

pub fn read_long(bytes: &[u8], at: usize) -> Result<(i64, usize), Refusal>
    ensures { paper_number result ≡ long_at bytes.now at }
{
    let (x, next) = read_number(bytes, at, 8)?;
    Ok((number::signed64(x), next))
}

// An [int] that counts bytes: none where it is negative.
fn read_count(bytes: &[u8], at: usize) -> Result<(Option<usize>, usize), Refusal>
    ensures { paper_count result ≡ count_at bytes.now at }
{
    let (n, next) = read_int(bytes, at)?;
    Ok((usize::try_from(n).ok(), next))
}

// n bytes, whatever they are.
fn read_run(bytes: &[u8], n: usize, at: usize) -> Result<(Place, usize), Refusal>
    ensures { paper_part result ≡ run_at bytes.now n at }
{
    if inner::room(bytes.len(), at, n) {
        Ok((Place { start: at, len: n }, at + n))
    } else {
        Err(Refusal::PastEnd)
    }
}

// n bytes of UTF-8. In line, since a list of empty strings takes half as long again with a call for each.
#[inline(always)]
fn read_text(bytes: &[u8], n: usize, at: usize) -> Result<(Place, usize), Refusal>
    ensures { paper_part result ≡ text_at bytes.now n at }
{
    if !inner::room(bytes.len(), at, n) {
        return Err(Refusal::PastEnd);
    }
    let next = at + n;
    if utf8::is_utf8(&bytes[at..next]) {
        Ok((Place { start: at, len: n }, next))
    } else {
        Err(Refusal::NotUtf8)
    }
}

pub fn read_uuid(bytes: &[u8], at: usize) -> Result<(Place, usize), Refusal>
    ensures { paper_part result ≡ uuid_at bytes.now at }
{
    read_run(bytes, 16, at)
}

pub fn read_short_bytes(bytes: &[u8], at: usize) -> Result<(Place, usize), Refusal>
    ensures { paper_part result ≡ short_bytes_at bytes.now at }
{
    let (n, next) = read_short(bytes, at)?;
    read_run(bytes, n as usize, next)
}

#[inline(always)]
pub fn read_string(bytes: &[u8], at: usize) -> Result<(Place, usize), Refusal>
    ensures { paper_part result ≡ string_at bytes.now at }
{
    let (n, next) = read_short(bytes, at)?;
    read_text(bytes, n as usize, next)
}

pub fn read_long_string(bytes: &[u8], at: usize) -> Result<(Place, usize), Refusal>
    ensures { paper_part result ≡ long_string_at bytes.now at }
{
    match read_count(bytes, at)? {
        (Some(n), next) => read_text(bytes, n, next),
        (None, _) => Err(Refusal::NegativeLength),
    }
}

// [bytes]: none where they are null.
pub fn read_bytes(bytes: &[u8], at: usize) -> Result<(Option<Place>, usize), Refusal>
    ensures { paper_bytes result ≡ bytes_at bytes.now at }
{
    match read_count(bytes, at)? {
        (Some(n), next) => {
            let (place, end) = read_run(bytes, n, next)?;
            Ok((Some(place), end))
        }
        (None, next) => Ok((None, next)),
    }
}

// Where the last of n strings ends.
#[tactic(auto, using(crate::proofs::Reading::strings_go, crate::proofs::Reading::strings_stop, crate::proofs::Reading::strings_none))]
fn read_strings(bytes: &[u8], n: u16, at: usize) -> Result<usize, Refusal>
    ensures { paper_end result ≡ end_of (strings_at bytes.now n at) }
{
    let mut next = at;
    for _ in 0..n {
        let (_, end) = read_string(bytes, next)?;
        next = end;
    }
    Ok(next)
}

pub fn read_string_list(bytes: &[u8], at: usize) -> Result<(Walk, usize), Refusal>
    ensures { paper_strings result ≡ string_list_at bytes.now at }
{
    let (left, start) = read_short(bytes, at)?;
    let next = read_strings(bytes, left, start)?;
    Ok((Walk { left, at: start }, next))
}

// The next of the strings that are left.
#[tactic(auto, using(crate::proofs::Reading::step_go, crate::proofs::Reading::step_stop, crate::proofs::Reading::step_none))]
pub fn next_string(bytes: &[u8], walk: Walk) -> Result<Walked, Refusal>
    ensures { paper_walked result ≡ step_at bytes.now walk.left walk.at }
{
    if walk.left == 0 {
        return Ok(Walked::End(walk.at));
    }
    let (place, at) = read_string(bytes, walk.at)?;
    let left = walk.left - 1;
    Ok(Walked::Text(place, Walk { left, at }))
}
