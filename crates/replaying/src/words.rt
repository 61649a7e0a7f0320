// The words of a command line.
use crate::statuses::{STREAM_FAULT, USAGE, out_of_memory};
use std::io::ErrorKind;
use std::rt::Env;
use std::{env, io};

/// Returns the words of the command line, the program's own name first.
///
/// # Errors
/// If a word is not UTF-8, or memory cannot be allocated.
pub fn words_of<R: AllocGlobal + Env>(rt: &R) -> io::Result<Vec<String>> {
    let mut words = Vec::new(rt.alloc());
    for word in env::args(rt)? {
        words.push(word)?;
    }
    Ok(words)
}

/// Reports the `error` of [`words_of`], and returns the status to end with.
pub fn unread<R: Eprint>(rt: &R, error: &io::Error) -> u8 {
    match error.kind() {
        ErrorKind::OutOfMemory => out_of_memory(rt),
        ErrorKind::InvalidData | ErrorKind::InvalidInput => {
            let _told = eprintln!(rt; "eggnet: say each word in UTF-8");
            USAGE
        }
        _ => {
            let _told = eprintln!(rt; "eggnet: the command line can't be read");
            STREAM_FAULT
        }
    }
}
