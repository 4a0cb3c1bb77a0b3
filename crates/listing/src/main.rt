// Lists what a stream of short segments on standard input holds, a line for each answer of the reader (docs/RULES.md 12).
#![tactic(auto)]

use cases::say::{Page, write_decimal, write_fields};
use cases::streams::{Listener, Stream};
use cases::tell::{Failure, tell};
use frame::Envelope;
use segment::Form;
use std::fmt;
use std::fmt::Write;
use std::io::{Read, Stdin};

// How long both buffers are (12.1).
const BUFFER_LEN: usize = 65_536;

struct Lines;

impl Listener for Lines {
    fn envelope(page: &mut Page, _bytes: &[u8], envelope: Envelope) -> fmt::Result {
        page.write_str("env ")?;
        write_fields(page, envelope.header)?;
        page.write_str(" ")?;
        write_decimal(page, envelope.body.len as u64)?;
        page.write_str("\n")
    }

    fn leftover(page: &mut Page, n: usize) -> fmt::Result {
        writeln!(page, "left {n}")
    }
}

// No line is kept back while a piece is waited for, and none is read for lines that can't be written. What is held when a read fails is no end: the stream
// may go on. A proved loop has to end, and nothing says that an input does: the turns are counted to a number that no run comes to.
fn list(mut stdin: Stdin, page: &mut Page) -> Result<(), Failure> {
    let mut stream = Stream::<BUFFER_LEN, BUFFER_LEN>::new(Form::Short);
    let mut buffer = [0u8; 4096];
    writeln!(page, "form short")?;
    for _ in 0..u64::MAX {
        page.flush()?;
        let n = stdin.read(&mut buffer).map_err(|_| Failure::Unreadable)?;
        if n == 0 {
            writeln!(page, "end {}", stream.held())?;
            break;
        }
        if let Some(why) = stream.use_up::<Lines>(page, &buffer[..n])? {
            writeln!(page, "refused {}", why.number())?;
            break;
        }
    }
    page.flush()?;
    Ok(())
}

fn main(rt: HostRuntime) {
    if let Err(why) = list(rt.stdin(), &mut Page::new(rt.stdout())) {
        tell(rt.stderr(), "listing", why);
    }
}
