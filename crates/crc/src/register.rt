// What the two checks have in common: a register takes in one byte after the other, bit by bit.
ghost use Rattle.std.specs.Prelude.{◌≡◌, ℕ};
ghost use Rattle.crc.specs.Fold.{run, times};

pub trait Register: Copy {
    ghost number: { Self → ℕ };

    ghost shifted: { ℕ → ℕ };

    ghost after_byte: { ℕ → ℕ → ℕ };

    // One bit.
    fn shift(self) -> Self
        ensures { number result ≡ shifted (number self) };

    // A byte goes in, and is through after eight shifts.
    fn xor_in(self, b: u8) -> Self
        ensures { times 8 shifted (number result) ≡ after_byte (number self) b };

    // One byte: xor it in; then eight bits.
    #[tactic(auto, using(crate::proofs::Fold::times_turn), unfolding(crate::specs::Fold::times))]
    final fn byte(self, b: u8) -> Self
        ensures { number result ≡ after_byte (number self) b }
    {
        let mut register = self.xor_in(b);
        for _ in 0u32..8 {
            register = register.shift();
        }
        register
    }

    // The register after some bytes.
    #[tactic(auto, unfolding(crate::specs::Fold::run))]
    final fn update(self, bytes: &[u8]) -> Self
        ensures { number result ≡ run after_byte (number self) bytes.now }
    {
        let mut register = self;
        for &b in bytes {
            register = register.byte(b);
        }
        register
    }
}
