// What the comparison with the Rust original links (oracle/): the library's calls, by the C convention. Values go in and come back as words, each at
// a place that the function says; a word past the end of a list is 0 when read and nowhere when written.
#![tactic(auto)]

use crc::{crc24, crc32};
use frame::read::check_envelope_size;

pub mod notation;
pub mod reader;
pub mod words;
pub mod writer;

#[unsafe(no_mangle)]
pub extern "C" fn judged_crc24(bytes: &[u8]) -> u32 {
    crc24(bytes)
}

#[unsafe(no_mangle)]
pub extern "C" fn judged_crc32(bytes: &[u8]) -> u32 {
    crc32(bytes)
}

#[unsafe(no_mangle)]
pub extern "C" fn judged_size(bytes: &[u8]) -> i64 {
    check_envelope_size(bytes)
}

#[unsafe(no_mangle)]
pub extern "C" fn judged_is_utf8(bytes: &[u8]) -> bool {
    utf8::is_utf8(bytes)
}
