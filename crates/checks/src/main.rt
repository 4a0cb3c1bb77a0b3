// Writes both checks of what it reads from standard input, in pieces as they come.
#![tactic(auto)]

use cases::say::Page;
use cases::tell::{Failure, tell};
use crc::{Running24, Running32};
use std::fmt::Write;
use std::io::{Read, Stdin, Stdout};

// The checks as they are after some pieces.
#[derive(Clone, Copy)]
struct Sums {
    header: Running24,
    payload: Running32,
}

impl Sums {
    fn start() -> Sums {
        Sums {
            header: Running24::start(),
            payload: Running32::start(),
        }
    }

    fn more(self, piece: &[u8]) -> Sums {
        Sums {
            header: self.header.more(piece),
            payload: self.payload.more(piece),
        }
    }
}

// A proved loop has to end, and nothing says that an input does: the turns are counted to a number that no run comes to.
fn read_all(mut stdin: Stdin) -> Result<Sums, Failure> {
    let mut sums = Sums::start();
    let mut buffer = [0u8; 4096];
    for _ in 0..u64::MAX {
        match stdin.read(&mut buffer).map_err(|_| Failure::Unreadable)? {
            0 => return Ok(sums),
            n => sums = sums.more(&buffer[..n]),
        }
    }
    Err(Failure::Unreadable)
}

fn run(stdin: Stdin, stdout: Stdout) -> Result<(), Failure> {
    let sums = read_all(stdin)?;
    let mut page = Page::new(stdout);
    writeln!(page, "crc24 {:06x}", sums.header.finish())?;
    writeln!(page, "crc32 {:08x}", sums.payload.finish())?;
    page.flush()?;
    Ok(())
}

fn main(rt: HostRuntime) {
    if let Err(why) = run(rt.stdin(), rt.stdout()) {
        tell(rt.stderr(), "checks", why);
    }
}
