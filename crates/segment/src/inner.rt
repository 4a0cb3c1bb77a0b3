// What the crates above share with this one and no caller is meant to use: here the room is asked for, not tested.
ghost use Rattle.std.specs.Prelude.{◌≡◌, ◌+◌, ◌≤◌, ◌<◌, ◌^◌, length};
ghost use Rattle.types.specs.Number.{part};
ghost use Rattle.types.specs.Write.{put};
ghost use Rattle.segment.specs.LittleEndian.{le, le_digits};
ghost use Rattle.segment.specs.Header.{header_length, header_bytes};
ghost use Rattle.segment.specs.Paper.{paper_form, paper_header};

use crate::{CHECK_LEN, Form, Header};
use crc::crc24;

// The number of the n bytes from at on, the last byte first.
#[tactic(auto, using(crate::proofs::LittleEndian::reading))]
pub fn read_number(bytes: &[u8], at: usize, n: usize) -> u64
    requires { (n ≤ 8) × (at + n ≤ length bytes.now) }
    ensures { (result ≡ le (part bytes.now at n)) × (result < 256 ^ n) }
{
    let mut value = 0;
    for &b in bytes[at..at + n].iter().rev() {
        value = value * 256 + b as u64;
    }
    value
}

// The n lowest bytes of x, from at on.
#[tactic(auto, using(crate::proofs::LittleEndian::writing))]
pub fn put_number(out: &mut [u8], at: usize, n: usize, x: u64)
    requires { at + n ≤ length out.old }
    ensures { out.new ≡ put out.old at (le_digits n x) }
{
    let mut rest = x;
    for b in &mut out[at..at + n] {
        *b = (rest % 256) as u8;
        rest /= 256;
    }
}

// A header at the front of out.
#[tactic(auto, using(crate::proofs::HeaderLaid::header_laid))]
pub fn put_header(out: &mut [u8], form: Form, header: Header)
    requires { header_length (paper_form form) ≤ length out.old }
    ensures { out.new ≡ put out.old 0 (header_bytes (paper_form form) (paper_header header)) }
{
    let n = crate::number_len(form);
    let x = crate::header_number(form, header);
    put_number(out, 0, n, x);
    let check = crc24(&out[..n]);
    put_number(out, n, CHECK_LEN, check as u64);
}
