// What went wrong, told on standard error behind the program's name. Where that fails as well, nobody is left to tell.
use std::fmt;
use std::io::{Eprint, Stderr};

#[derive(Clone, Copy, Debug, PartialEq, Eq)]
pub enum Failure {
    Unreadable,
    Unwritable,
    // The input has more bytes than so many.
    TooLong(usize),
}

impl fmt::Display for Failure {
    fn fmt<W: fmt::Write>(&self, f: &mut fmt::Formatter<W>) -> fmt::Result {
        match self {
            Failure::Unreadable => write!(f, "standard input can't be read"),
            Failure::Unwritable => write!(f, "standard output can't be written"),
            Failure::TooLong(most) => write!(
                f,
                "standard input is longer than {most} bytes, and none of it is answered"
            ),
        }
    }
}

// Only a page fails to be written to.
impl From<fmt::Error> for Failure {
    fn from(_e: fmt::Error) -> Failure {
        Failure::Unwritable
    }
}

pub fn tell(stderr: Stderr, name: &str, why: Failure) {
    let _unheard = stderr.eprintln(format_args!("{name}: {why}"));
}
