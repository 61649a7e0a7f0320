// Replays whose streams or scripts fail: `replay`.
use crate::nets::no_procs;
use replay::{ReplayError, replay};
use std::alloc::Global;
use std::io;
use std::io::{ErrorKind, Read, Write};
use streams::Duplex;

// Returns whether `answer` is a script fault of this `line`.
fn is_fault_of(answer: Result<(), ReplayError>, line: u64) -> bool {
    match answer {
        Err(ReplayError::Script(fault)) => fault.line == line,
        _ => false,
    }
}

// Returns whether a replay of what `reader` gives ends with a fault of this `line`, and writes nothing.
fn is_fault<R: Read + Drop>(alloc: Global, mut reader: R, line: u64) -> bool {
    let mut written = Vec::new(alloc);
    let answer = replay(
        alloc,
        no_procs(alloc),
        &mut Duplex::new(&mut reader, &mut written),
    );
    is_fault_of(answer, line) && written.is_empty()
}

#[test]
fn a_script_fault_writes_nothing(rt: HostRuntime) {
    assert!(rt; is_fault(rt.alloc(), b"leaves 1\nfly 1\nshow 0\n".as_slice(), 2));
    assert!(rt; is_fault(rt.alloc(), io::repeat(b'\n'), 0), "too long");
}

// A reader that fails after its bytes.
#[derive(Drop)]
struct Broken<'a>(&'a [u8]);

impl Read for Broken<'_> {
    fn read(&mut self, buf: &mut [u8]) -> io::Result<usize> {
        if self.0.is_empty() {
            return Err(io::Error::from(ErrorKind::ConnectionReset));
        }
        self.0.read(buf)
    }
}

// A writer that takes a few bytes at a time, and nothing once its room is used.
#[derive(Drop)]
struct Full {
    room: usize,
    taken: usize,
}

impl Write for Full {
    fn write(&mut self, buf: &[u8]) -> io::Result<usize> {
        let count = buf.len().min(3).min(self.room);
        self.room -= count;
        self.taken = self.taken.saturating_add(count);
        Ok(count)
    }

    fn flush(&mut self) -> io::Result<()> {
        Err(io::Error::from(ErrorKind::NotConnected))
    }
}

// Returns what a replay answers if the writer has this much `room`, and how many bytes the writer took.
fn written_into(alloc: Global, room: usize) -> (Result<(), ReplayError>, usize) {
    let mut writer = Full { room, taken: 0 };
    let mut reader: &[u8] = b"leaves 0\nshow 0\n";
    let answer = replay(
        alloc,
        no_procs(alloc),
        &mut Duplex::new(&mut reader, &mut writer),
    );
    (answer, writer.taken)
}

#[test]
fn a_stream_that_fails_is_a_read_or_a_write_fault(rt: HostRuntime) {
    let mut reader = Broken(b"leaves 0\nshow 0\n");
    let mut written = Vec::new(rt.alloc());
    let answer = replay(
        rt.alloc(),
        no_procs(rt.alloc()),
        &mut Duplex::new(&mut reader, &mut written),
    );
    assert!(rt; answer == Err(ReplayError::Read) && written.is_empty());
    // The transcript has 27 bytes: the writer leaves the last one over, or takes all and fails at the flush.
    assert!(rt; written_into(rt.alloc(), 26) == (Err(ReplayError::Write), 26));
    assert!(rt; written_into(rt.alloc(), 100) == (Err(ReplayError::Write), 27));
}
