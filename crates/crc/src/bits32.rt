// CRC32, the check of a segment's payload.
ghost use Rattle.std.specs.Prelude.{◌≡◌};
ghost use Rattle.crc.specs.Check32.{shift32, byte32, crc32, start32, more32, finish32};
ghost use Rattle.crc.specs.Running.{running32};

use crate::register::Register;

const POLYNOMIAL: u32 = 0xEDB8_8320;

const ONES: u32 = 0xffff_ffff;

// The check of a payload that is there at once.
#[tactic(auto, using(crate::proofs::Check32::crc32_finished))]
pub fn crc32(bytes: &[u8]) -> u32
    ensures { result ≡ crc32 bytes.now }
{
    Running32::start().more(bytes).finish()
}

// The check of a payload that comes in parts: start, more for each part, finish.
#[derive(Clone, Copy, Debug, PartialEq, Eq)]
pub struct Running32 {
    pub value: u32,
}

impl Register for Running32 {
    ghost number = { λ r. r.value };

    ghost shifted = { shift32 };

    ghost after_byte = { byte32 };

    // Shift right by one and, if the bit shifted out is set, xor the polynomial.
    #[tactic(auto, using(crate::proofs::Check32::shift32_set, crate::proofs::Check32::shift32_clear))]
    fn shift(self) -> Self {
        let x = self.value >> 1;
        if self.value % 2 == 1 {
            return Running32 {
                value: x ^ POLYNOMIAL,
            };
        }
        Running32 { value: x }
    }

    #[tactic(auto, unfolding(crate::specs::Check32::byte32))]
    fn xor_in(self, b: u8) -> Self {
        Running32 {
            value: self.value ^ (b as u32),
        }
    }
}

impl Running32 {
    // The four bytes that Cassandra takes in before every payload are fed here.
    #[tactic(auto, unfolding(crate::specs::Check32::start32))]
    pub fn start() -> Self
        ensures { result ≡ running32 start32 }
    {
        Running32 { value: ONES }.update(b"\xfa\x2d\x55\xca")
    }

    #[tactic(auto, unfolding(crate::specs::Check32::more32))]
    pub fn more(self, bytes: &[u8]) -> Self
        ensures { result ≡ running32 (more32 self.value bytes.now) }
    {
        self.update(bytes)
    }

    pub fn finish(self) -> u32
        ensures { result ≡ finish32 self.value }
    {
        !self.value
    }
}
