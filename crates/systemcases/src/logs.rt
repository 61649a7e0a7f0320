// The log of a process, over a file and over a pipe.
use crate::seen::{Seen, yes};
use net::{Log, MAX_LOG_LINE, MAX_LOG_WAITING};
use std::fs::File;
use std::io::{PipeReader, Read as _};
use std::net::Net;
use std::os::fd::AsRawFd as _;
use std::rt::Files;
use std::{fs, io};

// How many of the longest lines may wait: more than a pipe of Linux takes, which has 16 pages.
const MOST_LINES: usize = MAX_LOG_WAITING / (MAX_LOG_LINE + 1);

/// Makes standard output a file, then a pipe, and logs to them. Leaves it closed. A new file must get the descriptor 0, so
/// standard input must be closed.
pub fn logs<R: AllocGlobal + Files<File = File> + Net + Print>(
    rt: &R,
    seen: &mut Seen,
) -> io::Result<()> {
    libc::close(libc::STDOUT_FILENO);
    to_file(rt, seen)?;
    to_pipe(rt, seen)
}

// Logs to a file, which can't be watched.
fn to_file<R: AllocGlobal + Files<File = File> + Net + Print>(
    rt: &R,
    seen: &mut Seen,
) -> io::Result<()> {
    let _descriptor_0 = fs::create(rt, "first")?;
    let output = fs::create(rt, "first")?;
    let is_output = output.as_raw_fd() == libc::STDOUT_FILENO;
    seen.note("standard output is a file", yes(is_output));
    let mut log = Log::open(rt)?;
    log.note(1, &"up");
    log.flush(rt);
    let written = fs::read(rt, "first")?;
    seen.note(
        "it has the line at once",
        yes(written.as_slice() == b"1 up\n".as_slice()),
    );
    fs::remove_file(rt, "first")
}

// Logs to a pipe.
fn to_pipe<R: AllocGlobal + Files + Net + Print>(rt: &R, seen: &mut Seen) -> io::Result<()> {
    let (reader, writer) = io::pipe(rt)?;
    let is_output = writer.as_raw_fd() == libc::STDOUT_FILENO;
    seen.note("standard output is a pipe", yes(is_output));
    let mut reader = reader;
    let mut log = Log::open(rt)?;
    fill(rt, seen, &mut log)?;
    drain(rt, seen, &mut log, &mut reader)?;
    drop(reader);
    log.note(3, &"unread");
    log.flush(rt);
    seen.note("what nobody can read waits", yes(!log.is_empty()));
    Ok(())
}

// Logs more than may wait, and than the pipe takes.
fn fill<R: AllocGlobal + Print>(rt: &R, seen: &mut Seen, log: &mut Log) -> io::Result<()> {
    let long = "a".repeat(rt.alloc(), MAX_LOG_LINE - 2)?;
    for _ in 0..MOST_LINES + 2 {
        log.note(1, &long);
    }
    seen.note("two lines too many are dropped", yes(log.dropped() == 2));
    log.flush(rt);
    let waiting = log.len();
    seen.note(
        "the others fill the pipe",
        yes(waiting < MOST_LINES * (MAX_LOG_LINE + 1)),
    );
    seen.note("the rest waits", yes(waiting > 0));
    log.note(2, &"more");
    seen.note("one more fits", yes(log.dropped() == 0));
    Ok(())
}

// Reads what the pipe holds, and what waited as the pipe takes it.
fn drain<R: AllocGlobal + Print>(
    rt: &R,
    seen: &mut Seen,
    log: &mut Log,
    reader: &mut PipeReader,
) -> io::Result<()> {
    let mut piece = Vec::from_elem(rt.alloc(), 0, MAX_LOG_LINE + 1)?;
    for _ in 0..MOST_LINES {
        reader.read_exact(&mut piece)?;
        log.flush(rt);
    }
    let is_whole = piece.starts_with(b"1 aaa") && piece.ends_with(b"aaa\n");
    seen.note("the last line is whole", yes(is_whole));
    seen.note("nothing waits once they are read", yes(log.is_empty()));
    let count = reader.read(&mut piece)?;
    let told = b"2 log: too much waited to be written, so lines were dropped: 2\n2 more\n";
    seen.note("the gap is told", yes(piece[..count].starts_with(told)));
    Ok(())
}
