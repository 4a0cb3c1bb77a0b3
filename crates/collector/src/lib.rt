// What a Rust host links, by the C convention (docs/RULES.md, 2.5). A static library holds the exported functions of one crate, so all of them
// stand here.
#![tactic(auto)]

ghost use Rattle.std.specs.Prelude.{◌≡◌};
ghost use Rattle.crc.specs.Check24.{crc24 as check_of_24};
ghost use Rattle.crc.specs.Check32.{crc32 as check_of_32};
ghost use Rattle.frame.specs.Envelope.{size_of, size_number};

use crc::{crc24, crc32};
use frame::read::check_envelope_size;

#[unsafe(no_mangle)]
pub extern "C" fn tanglegoose_crc24(bytes: &[u8]) -> u32
    ensures { result ≡ check_of_24 bytes.now }
{
    crc24(bytes)
}

#[unsafe(no_mangle)]
pub extern "C" fn tanglegoose_crc32(bytes: &[u8]) -> u32
    ensures { result ≡ check_of_32 bytes.now }
{
    crc32(bytes)
}

#[unsafe(no_mangle)]
pub extern "C" fn tanglegoose_check_envelope_size(bytes: &[u8]) -> i64
    ensures { result ≡ size_number (size_of bytes.now) }
{
    check_envelope_size(bytes)
}
