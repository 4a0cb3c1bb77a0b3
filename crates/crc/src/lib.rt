// The two checks of a segment (docs/RULES.md, section 2), bit by bit.
#![tactic(auto)]

mod bits24;
mod bits32;
mod register;

pub use bits24::{Running24, crc24};
pub use bits32::{Running32, crc32};
