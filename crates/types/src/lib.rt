// The notations of the native protocol (the v5 document, section 3), read and written at a position of lent bytes.
// `specs/Paper.antt` says what each case of an answer means.
#![tactic(auto)]

ghost use Rattle.std.specs.Prelude.{◌≡◌};
ghost use Rattle.types.specs.Read.{bytes_in};
ghost use Rattle.types.specs.Paper.{place_of};

pub mod inner;
pub mod number;
pub mod read;
pub mod write;

// The largest [short] and the largest [int].
pub const MAX_SHORT: usize = 65_535;

pub const MAX_INT: usize = 2_147_483_647;

// Where some bytes stand in lent ones.
#[derive(Clone, Copy, Debug, PartialEq, Eq)]
pub struct Place {
    pub start: usize,
    pub len: usize,
}

// Strings that are still to be walked along: how many, and where the first of them begins.
#[derive(Clone, Copy, Debug, PartialEq, Eq)]
pub struct Walk {
    pub left: u16,
    pub at: usize,
}

// A step along some strings: a text with those behind it, or the position behind the last.
#[derive(Clone, Copy, Debug, PartialEq, Eq)]
pub enum Walked {
    Text(Place, Walk),
    End(usize),
}

// The bytes of a place, and none where it runs past the end.
#[tactic(auto, unfolding(crate::specs::Read::bytes_in))]
pub fn part<'a>(bytes: &'a [u8], place: Place) -> &'a [u8]
    ensures { result.now ≡ bytes_in bytes.now (place_of place) }
{
    let Place { start, len } = place;
    if inner::room(bytes.len(), start, len) {
        &bytes[start..start + len]
    } else {
        &[]
    }
}
