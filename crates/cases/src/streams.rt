// A stream reader with its buffers, and what is said of its answers.
ghost use Rattle.std.specs.Prelude.{◌≡◌};
ghost use Rattle.segment.specs.Paper.{paper_form};
ghost use Rattle.frame_decoder.specs.Reader.{fresh, held};
ghost use Rattle.frame_decoder.specs.Paper.{paper_reader};

use crate::say::Page;
use frame::Envelope;
use frame_decoder::{Answer, FrameDecoder};
use refusal::Refusal;
use segment::Form;
use std::fmt;

// What a program says of the answers behind which it reads on.
pub trait Listener {
    fn envelope(page: &mut Page, bytes: &[u8], envelope: Envelope) -> fmt::Result;

    fn leftover(page: &mut Page, n: usize) -> fmt::Result;
}

// Calls with the rest of a piece until more is asked for or a refusal comes, which it hands back. By 6.3 that is long before the turns are counted.
fn use_up<L: Listener>(
    reader: &mut FrameDecoder,
    segment: &mut [u8],
    reassembly: &mut [u8],
    page: &mut Page,
    piece: &[u8],
) -> Result<Option<Refusal>, fmt::Error> {
    let mut rest = piece;
    for _ in 0..u64::MAX {
        let heard = reader.consume(segment, reassembly, rest);
        match heard.answer {
            Ok(Answer::Envelope(buffer, place, envelope)) => {
                let bytes = frame_decoder::part(buffer, segment, reassembly, place);
                L::envelope(page, bytes, envelope)?;
            }
            Ok(Answer::Leftover(n)) => L::leftover(page, n)?,
            Ok(Answer::More) => return Ok(None),
            Err(why) => return Ok(Some(why)),
        }
        rest = &rest[heard.taken.min(rest.len())..];
    }
    Ok(None)
}

#[derive(Drop)]
pub struct Stream<const SEGMENT_LEN: usize, const REASSEMBLY_LEN: usize> {
    reader: FrameDecoder,
    segment: [u8; SEGMENT_LEN],
    reassembly: [u8; REASSEMBLY_LEN],
}

impl<const SEGMENT_LEN: usize, const REASSEMBLY_LEN: usize> Stream<SEGMENT_LEN, REASSEMBLY_LEN> {
    pub fn new(form: Form) -> Self
        ensures { paper_reader result.reader ≡ fresh (paper_form form) SEGMENT_LEN REASSEMBLY_LEN }
    {
        Stream {
            reader: FrameDecoder::new(form, SEGMENT_LEN, REASSEMBLY_LEN),
            segment: [0; SEGMENT_LEN],
            reassembly: [0; REASSEMBLY_LEN],
        }
    }

    // How many bytes of an unfinished segment or envelope are held.
    pub fn held(&self) -> usize
        ensures { result ≡ held (paper_reader self.now.reader) }
    {
        self.reader.held()
    }

    // Uses up a piece. On the way the reader is a value of its own, and is not stored and read again for each answer.
    pub fn use_up<L: Listener>(
        &mut self,
        page: &mut Page,
        piece: &[u8],
    ) -> Result<Option<Refusal>, fmt::Error> {
        let mut reader = self.reader;
        let used = use_up::<L>(
            &mut reader,
            &mut self.segment,
            &mut self.reassembly,
            page,
            piece,
        );
        self.reader = reader;
        used
    }
}
