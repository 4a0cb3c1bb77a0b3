// Signed numbers and their bits, in two's complement.
ghost use Rattle.std.specs.Prelude.{◌≡◌};
ghost use Rattle.std.specs.Int.{w16, w32, w64};
ghost use Rattle.std.proofs.Common.{to_z, of_z};

// The signed number that has these bits.
pub fn signed16(bits: u16) -> i16
    ensures { result ≡ to_z w16 bits }
{
    u16::cast_signed(bits)
}

pub fn signed32(bits: u32) -> i32
    ensures { result ≡ to_z w32 bits }
{
    u32::cast_signed(bits)
}

pub fn signed64(bits: u64) -> i64
    ensures { result ≡ to_z w64 bits }
{
    u64::cast_signed(bits)
}

// The bits of a signed number.
pub fn bits16(x: i16) -> u16
    ensures { result ≡ of_z w16 x }
{
    i16::cast_unsigned(x)
}

pub fn bits32(x: i32) -> u32
    ensures { result ≡ of_z w32 x }
{
    i32::cast_unsigned(x)
}

pub fn bits64(x: i64) -> u64
    ensures { result ≡ of_z w64 x }
{
    i64::cast_unsigned(x)
}
