// UTF-8 as RFC 3629, section 4, has it.
#![tactic(auto)]

ghost use Rattle.std.specs.Prelude.{◌≡◌};
ghost use Rattle.utf8.specs.Utf8.{begin, rows, step, whole, utf8};
ghost use Rattle.utf8.specs.Private.Waiting.{want_of};

// What is still to come of a character: nothing, so that a first byte may come; or a byte from low to high and then `more` bytes
// from 80 to bf; or nothing can make it one.
#[derive(Clone, Copy)]
enum Waiting {
    First,
    Tail { low: u8, high: u8, more: u8 },
    Never,
}

fn tail(low: u8, high: u8, more: u8) -> Waiting
    ensures { result ≡ Waiting.Tail low high more }
{
    Waiting::Tail { low, high, more }
}

// The rows of the table, one after the other. The first is a guard since most bytes lie in it: a match tries single values before any range.
#[tactic(auto, using(std::proofs::lemmas::Bool::Decides::nat_tests), unfolding(crate::specs::Utf8::begin, crate::specs::Private::Waiting::tails))]
fn first(b: u8) -> Waiting
    ensures { want_of result ≡ begin rows b }
{
    match b {
        _ if b <= 0x7f => Waiting::First,
        0xc2..=0xdf => tail(0x80, 0xbf, 0),
        0xe0 => tail(0xa0, 0xbf, 1),
        0xe1..=0xec => tail(0x80, 0xbf, 1),
        0xed => tail(0x80, 0x9f, 1),
        0xee..=0xef => tail(0x80, 0xbf, 1),
        0xf0 => tail(0x90, 0xbf, 2),
        0xf1..=0xf3 => tail(0x80, 0xbf, 2),
        0xf4 => tail(0x80, 0x8f, 2),
        _ => Waiting::Never,
    }
}

#[tactic(auto, using(std::proofs::lemmas::Bool::Decides::nat_tests), unfolding(crate::specs::Utf8::step, crate::specs::Private::Waiting::tails))]
fn next(w: Waiting, b: u8) -> Waiting
    ensures { want_of result ≡ step (want_of w) b }
{
    match w {
        Waiting::First => first(b),
        Waiting::Tail { low, high, .. } if b < low || high < b => Waiting::Never,
        Waiting::Tail { more: 0, .. } => Waiting::First,
        Waiting::Tail { more, .. } => tail(0x80, 0xbf, more - 1),
        Waiting::Never => Waiting::Never,
    }
}

// The bytes are UTF-8.
#[tactic(auto, unfolding(crate::specs::Utf8::utf8))]
pub fn is_utf8(bytes: &[u8]) -> bool
    ensures { result ≡ utf8 bytes.now }
{
    let mut w = Waiting::First;
    for &b in bytes {
        w = next(w, b);
    }
    matches!(w, Waiting::First)
}
