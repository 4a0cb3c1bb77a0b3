// CRC24, the check of a segment's header.
ghost use Rattle.std.specs.Prelude.{◌≡◌, ◌<◌, ◌^◌};
ghost use Rattle.crc.specs.Check24.{start24, shift24, byte24, crc24, register24, more24};
ghost use Rattle.crc.specs.Running.{running24};

use crate::register::Register;

const POLYNOMIAL: u32 = 0x1974f0b;

const START: u32 = 0x875060;

#[derive(Clone, Copy)]
struct Register24 {
    value: u32,
    ghost in_24_bits: { value < 2 ^ 24 },
}

impl Register24 {
    // Of any number its low 24 bits count.
    fn of(value: u32) -> Self
        ensures { result.value ≡ register24 value }
    {
        Register24 {
            value: value % 0x100_0000,
        }
    }
}

impl Register for Register24 {
    ghost number = { λ r. r.value };

    ghost shifted = { shift24 };

    ghost after_byte = { byte24 };

    // Shift left by one and, if bit 24 is set, xor the polynomial, which clears it.
    #[tactic(auto, using(crate::proofs::Check24::shift24_set, crate::proofs::Check24::shift24_clear, crate::proofs::Check24::set_below))]
    fn shift(self) -> Self {
        let x = self.value * 2;
        if (x >> 24) % 2 == 1 {
            return Register24 {
                value: x ^ POLYNOMIAL,
            };
        }
        Register24 { value: x }
    }

    // Shifted left by 16.
    #[tactic(auto, using(crate::proofs::Check24::xor24_below), unfolding(crate::specs::Check24::byte24))]
    fn xor_in(self, b: u8) -> Self {
        Register24 {
            value: self.value ^ ((b as u32) * 0x1_0000),
        }
    }
}

// The check of all the bytes at once.
#[tactic(auto, unfolding(crate::specs::Check24::crc24))]
pub fn crc24(bytes: &[u8]) -> u32
    ensures { result ≡ crc24 bytes.now }
{
    Register24 { value: START }.update(bytes).value
}

// The check of bytes that come in parts: start, more for each part, finish.
#[derive(Clone, Copy, Debug, PartialEq, Eq)]
pub struct Running24 {
    pub value: u32,
}

impl Running24 {
    pub fn start() -> Self
        ensures { result ≡ running24 start24 }
    {
        Running24 { value: START }
    }

    #[tactic(auto, unfolding(crate::specs::Check24::more24))]
    pub fn more(self, bytes: &[u8]) -> Self
        ensures { result ≡ running24 (more24 self.value bytes.now) }
    {
        let register = Register24::of(self.value).update(bytes);
        Running24 {
            value: register.value,
        }
    }

    pub fn finish(self) -> u32
        ensures { result ≡ register24 self.value }
    {
        Register24::of(self.value).value
    }
}
