// Standard input as a whole.
use crate::tell::Failure;
use std::io::{Read, Stdin};

// The whole input, at the front of a buffer. Behind a full buffer a byte is looked for too, so that an input that just fits is told from a longer one.
pub fn read_whole(mut stdin: Stdin, buffer: &mut [u8]) -> Result<&[u8], Failure> {
    let mut chunk = [0u8; 4096];
    let mut done: usize = 0;
    loop {
        let n = stdin.read(&mut chunk).map_err(|_| Failure::Unreadable)?;
        if n == 0 {
            return Ok(&buffer[..done]);
        }
        if buffer.len() - done < n {
            return Err(Failure::TooLong(buffer.len()));
        }
        buffer[done..done + n].copy_from_slice(&chunk[..n]);
        done += n;
    }
}
