// Refusal 1: the lengths that are lent, and the counts of a state.
#![tactic(auto, unfolding(crate::specs::Reader::lent_fits, crate::specs::Reader::payload_fits, crate::specs::Reader::admissible))]

ghost use Rattle.std.specs.Prelude.{◌≡◌, true, ◌≤◌};
ghost use Rattle.segment.specs.Segment.{max_payload};
ghost use Rattle.segment.specs.Paper.{paper_form};
ghost use Rattle.frame_decoder.specs.Reader.{counts_of, payload_fits, counts_lie, admissible, held_in};
ghost use Rattle.frame_decoder.specs.Paper.{paper_reader};

use crate::{FrameDecoder, Phase, in_range};
use segment::{Form, MAX_PAYLOAD, TRAILER_LEN, header_len};
use types::inner;

fn payload_fits(form: Form, room: usize, len: usize) -> bool
    ensures { result ≡ payload_fits (paper_form form) room len }
{
    let around = header_len(form) + TRAILER_LEN;
    len <= MAX_PAYLOAD && inner::room(room, around, len)
}

// How long a payload its header told of.
fn payload_len(m: FrameDecoder) -> usize
    ensures { result ≡ (counts_of (paper_reader m)).payload }
{
    match m.phase {
        Phase::Rest { len, .. } | Phase::InSegment { len, .. } => len,
        _ => 0,
    }
}

fn counts_lie(m: FrameDecoder) -> bool
    requires { (counts_of (paper_reader m)).payload ≤ max_payload }
    ensures { result ≡ counts_lie (counts_of (paper_reader m)) }
{
    match m.phase {
        Phase::Header { filled } => filled <= header_len(m.form),
        Phase::Rest { filled, len, .. } => filled <= header_len(m.form) + len + TRAILER_LEN,
        Phase::InSegment { len, at } => at <= len,
        Phase::InReassembly { at } => at <= m.pending,
        Phase::Stopped(_) => true,
    }
}

// Where this is false, a call that is lent buffers of these lengths refuses with 1.
pub(crate) fn is_admissible(m: FrameDecoder, a: usize, b: usize) -> bool
    ensures { result ≡ admissible (paper_reader m) a b }
{
    in_range(a, b)
        && a == m.segment_len
        && b == m.reassembly_len
        && m.pending <= b
        && payload_fits(m.form, a, payload_len(m))
        && counts_lie(m)
}

pub(crate) fn held_in(m: FrameDecoder) -> usize
    requires { admissible (paper_reader m) m.segment_len m.reassembly_len ≡ true }
    ensures { result ≡ held_in (counts_of (paper_reader m)) }
{
    match m.phase {
        Phase::Header { filled } | Phase::Rest { filled, .. } => filled + m.pending,
        Phase::InSegment { .. } => m.pending,
        Phase::InReassembly { at } => m.pending - at,
        Phase::Stopped(_) => 0,
    }
}
