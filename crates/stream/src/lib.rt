// A caller who gives a whole stream to a reader in pieces and writes down what it hears; above it, in specs/ and proofs/, what a stream means and that the pieces don't matter.
// `specs/Paper.antt` says what each case of an answer means.
#![tactic(auto)]

ghost use Rattle.std.specs.Prelude.{◌≡◌, ◌+◌, ◌≤◌, min, length};
ghost use Rattle.types.specs.Paper.{place_of};
ghost use Rattle.segment.specs.Paper.{paper_form};
ghost use Rattle.frame_decoder.specs.Reader.{bytes_at};
ghost use Rattle.frame_decoder.specs.Paper.{paper_buffer};
ghost use Rattle.stream.specs.Collect.{noted, HeardAs};
ghost use Rattle.stream.specs.Paper.{tape_of, paper_end};
ghost use Rattle.stream.specs.Private.Inside.{Going};
ghost use Rattle.stream.specs.Private.Turn.{tape_in, SameOutputs, way_of, SameLent, TurnIs, UsedIs};

use frame_decoder::{Answer, Buffer, FrameDecoder, in_range, part};
use refusal::Refusal;
use segment::Form;
use types::{Place, inner};

// How many answers were written down, how many bytes of envelopes, and whether that is all.
#[derive(Clone, Copy, Debug, PartialEq, Eq)]
pub struct Notes {
    pub answers: usize,
    pub bytes: usize,
    pub complete: bool,
}

#[derive(Clone, Copy, Debug, PartialEq, Eq)]
pub enum End {
    // The refusal, and how many bytes were taken up to it.
    Refused(Refusal, usize),
    // So many bytes of an unfinished segment stand at the front of the segment buffer, and so many pending ones at the front of the other.
    Held(usize, usize),
}

#[derive(Clone, Copy, Debug, PartialEq, Eq)]
pub struct Collected {
    pub notes: Notes,
    pub end: End,
}

// ---- writing down

// The two outputs, and how much is written down there.
#[derive(Drop)]
struct Notebook<'a> {
    notes: Notes,
    envelopes: &'a mut [u8],
    marks: &'a mut [usize],
}

impl Notebook<'_> {
    // An answer's bytes behind those before, and its mark.
    #[tactic(auto, unfolding(crate::specs::Collect::noted))]
    fn note(&mut self, bytes: &[u8], mark: usize)
        ensures tape { tape_in self.new ≡ noted bytes.now mark (tape_in self.old) }
        ensures same_outputs { SameOutputs self.old self.new }
    {
        let Notes {
            answers,
            bytes: count,
            complete,
        } = self.notes;
        if complete
            && answers < self.marks.len()
            && inner::room(self.envelopes.len(), count, bytes.len())
        {
            self.marks[answers] = mark;
            inner::put_bytes(self.envelopes, count, bytes);
            self.notes = Notes {
                answers: answers + 1,
                bytes: count + bytes.len(),
                complete: true,
            };
        } else {
            self.notes.complete = false;
        }
    }
}

// ---- the loop

// Where a piece of cut bytes ends, or the stream.
fn piece_end(taken: usize, cut: usize, len: usize) -> usize
    requires { taken ≤ len }
    ensures { (result ≡ min (taken + cut) len) × (taken ≤ result) × (result ≤ len) }
{
    if cut <= len - taken { taken + cut } else { len }
}

// A reader on its way through a stream, the two buffers that it is lent, and how many bytes were taken.
#[derive(Drop)]
struct Listener<'a> {
    reader: FrameDecoder,
    segment: &'a mut [u8],
    reassembly: &'a mut [u8],
    stream: &'a [u8],
    taken: usize,
}

impl Listener<'_> {
    fn part(&self, buffer: Buffer, place: Place) -> &[u8]
        ensures { result.now ≡ bytes_at (paper_buffer buffer) self.now.segment.now self.now.reassembly.now (place_of place) }
    {
        part(buffer, self.segment, self.reassembly, place)
    }

    // One call with the bytes of the stream up to end: whether it answered, so that another answer may come of them.
    fn hear(&mut self, end: usize, notebook: &mut Notebook) -> Result<bool, Refusal>
        requires { Going self.old.stream.now (way_of self.old notebook.old) × (self.old.taken ≤ end) × (end ≤ length self.old.stream.now) }
        ensures turn { TurnIs result end self.old.stream.now (way_of self.old notebook.old) (way_of self.new notebook.new) }
        ensures same_lent { SameLent self.old self.new notebook.old notebook.new }
    {
        let piece = &self.stream[self.taken..end];
        let heard = self.reader.consume(self.segment, self.reassembly, piece);
        self.taken += heard.taken;
        let answer = heard.answer?;
        match answer {
            Answer::Envelope(buffer, place, _) => {
                let bytes = self.part(buffer, place);
                notebook.note(bytes, bytes.len() * 2);
                Ok(true)
            }
            Answer::Leftover(n) => {
                notebook.note(&[], n * 2 + 1);
                Ok(true)
            }
            Answer::More => Ok(false),
        }
    }

    // Calls with what is left of the piece that ends there, until it is used up or the reader stops.
    fn use_up(&mut self, end: usize, notebook: &mut Notebook) -> Result<(), Refusal>
        requires { Going self.old.stream.now (way_of self.old notebook.old) × (self.old.taken ≤ end) × (end ≤ length self.old.stream.now) }
        ensures used { UsedIs result end self.old.stream.now (way_of self.old notebook.old) (way_of self.new notebook.new) }
        ensures same_lent { SameLent self.old self.new notebook.old notebook.new }
    {
        while self.hear(end, notebook)? {}
        Ok(())
    }

    // Piece by piece as cut, and then the rest.
    fn give(&mut self, cuts: &[usize], notebook: &mut Notebook) -> Result<(), Refusal>
        requires { Going self.old.stream.now (way_of self.old notebook.old) }
        ensures used { UsedIs result (length self.old.stream.now) self.old.stream.now (way_of self.old notebook.old) (way_of self.new notebook.new) }
        ensures same_lent { SameLent self.old self.new notebook.old notebook.new }
    {
        for &cut in cuts {
            let end = piece_end(self.taken, cut, self.stream.len());
            self.use_up(end, notebook)?;
        }
        self.use_up(self.stream.len(), notebook)
    }
}

// Gives the stream to a fresh reader over the two buffers, cut into pieces of these lengths (and what is left at the end), each used up, and writes down what comes:
// the envelopes one after the other, and for each answer a mark, twice an envelope's length or twice a leftover and one. What it hears, writes down and leaves is the
// same for all cuts.
pub fn collect(
    form: Form,
    segment: &mut [u8],
    reassembly: &mut [u8],
    stream: &[u8],
    cuts: &[usize],
    envelopes: &mut [u8],
    marks: &mut [usize],
) -> Collected
    ensures { HeardAs (paper_form form) segment.old reassembly.old stream.now envelopes.old marks.old (tape_of result.notes envelopes.new marks.new) (paper_end result.end segment.new reassembly.new) segment.new reassembly.new }
{
    let notes = Notes {
        answers: 0,
        bytes: 0,
        complete: true,
    };
    if !in_range(segment.len(), reassembly.len()) {
        let end = End::Refused(Refusal::Inadmissible, 0);
        return Collected { notes, end };
    }
    let mut listener = Listener {
        reader: FrameDecoder::new(form, segment.len(), reassembly.len()),
        segment,
        reassembly,
        stream,
        taken: 0,
    };
    let mut notebook = Notebook {
        notes,
        envelopes,
        marks,
    };
    let end = match listener.give(cuts, &mut notebook) {
        Ok(()) => End::Held(listener.reader.filled(), listener.reader.pending),
        Err(e) => End::Refused(e, listener.taken),
    };
    Collected {
        notes: notebook.notes,
        end,
    }
}
