// Readers and writers as streams: `streams`.
use std::alloc::Global;
use std::io;
use std::io::{ErrorKind, Read, Write};
use streams::{
    Duplex, Given, Memory, ReadError, Stream as _, Taken, WriteFault, read_up_to, write_all,
    write_out,
};

// A reader that is interrupted before each read of at most three bytes, and answers `after` once no byte is left.
#[derive(Drop)]
struct Halting<'a> {
    rest: &'a [u8],
    is_next: bool,
    after: Option<ErrorKind>,
}

fn slow_reader(rest: &[u8], after: Option<ErrorKind>) -> Halting<'_> {
    Halting {
        rest,
        is_next: false,
        after,
    }
}

impl Read for Halting<'_> {
    fn read(&mut self, buf: &mut [u8]) -> io::Result<usize> {
        self.is_next = !self.is_next;
        if self.is_next {
            return Err(io::Error::from(ErrorKind::Interrupted));
        }
        if let (true, Some(kind)) = (self.rest.is_empty(), self.after) {
            return Err(io::Error::from(kind));
        }
        let count = buf.len().min(3);
        self.rest.read(&mut buf[..count])
    }
}

// A writer that is interrupted before each write of at most three bytes, has room for `room` bytes, and then answers
// `full`.
#[derive(Drop)]
struct Filling {
    taken: Vec<u8>,
    room: usize,
    is_next: bool,
    full: Option<ErrorKind>,
    can_flush: bool,
}

fn slow_writer(alloc: Global, room: usize, full: Option<ErrorKind>) -> Filling {
    Filling {
        taken: Vec::new(alloc),
        room,
        is_next: false,
        full,
        can_flush: true,
    }
}

impl Write for Filling {
    fn write(&mut self, buf: &[u8]) -> io::Result<usize> {
        self.is_next = !self.is_next;
        if self.is_next {
            return Err(io::Error::from(ErrorKind::Interrupted));
        }
        if let (0, Some(kind)) = (self.room, self.full) {
            return Err(io::Error::from(kind));
        }
        let count = buf.len().min(3).min(self.room);
        self.taken.extend_from_slice(&buf[..count])?;
        self.room -= count;
        Ok(count)
    }

    fn flush(&mut self) -> io::Result<()> {
        if self.can_flush {
            Ok(())
        } else {
            Err(io::Error::from(ErrorKind::BrokenPipe))
        }
    }
}

// Reads ten bytes and what comes after them, at most `most` bytes.
fn read_ten(alloc: Global, after: Option<ErrorKind>, most: usize) -> Result<Vec<u8>, ReadError> {
    let mut stream = Duplex::new(slow_reader(b"0123456789", after), io::sink());
    read_up_to(alloc, &mut stream, most)
}

#[test]
fn a_stream_is_read_to_its_end_or_to_a_bound(rt: HostRuntime) {
    let alloc = rt.alloc();
    let all = read_ten(alloc, None, 100).expect(&rt, "all");
    assert!(rt; all.as_slice() == b"0123456789".as_slice());
    let front = read_ten(alloc, None, 4).expect(&rt, "a front");
    assert!(rt; front.as_slice() == b"0123".as_slice());
    let exact = read_ten(alloc, Some(ErrorKind::BrokenPipe), 10).expect(
        &rt,
        "no byte more is asked for",
    );
    assert!(rt; exact.as_slice() == b"0123456789".as_slice());
    assert!(rt; read_ten(alloc, Some(ErrorKind::BrokenPipe), 11).err() == Some(ReadError::Fault));
    assert!(rt; read_ten(alloc, Some(ErrorKind::WouldBlock), 11).err() == Some(ReadError::Fault));
}

// Returns what a stream answers that has no byte, and then `after`.
fn answer_of(after: Option<ErrorKind>) -> Given {
    let mut stream = Duplex::new(slow_reader(b"", after), io::sink());
    stream.give(&mut [0; 8])
}

#[test]
fn an_answer_says_why_there_is_no_byte(rt: HostRuntime) {
    assert!(rt; answer_of(None) == Given::End);
    assert!(rt; answer_of(Some(ErrorKind::WouldBlock)) == Given::Stall);
    assert!(rt; answer_of(Some(ErrorKind::ConnectionReset)) == Given::Fault);
}

#[test]
fn bytes_are_written_whole_or_up_to_the_room(rt: HostRuntime) {
    let mut stream = Duplex::new(io::empty(), slow_writer(rt.alloc(), 100, None));
    assert!(rt; write_out(&mut stream, b"0123456789") == Ok(()));
    assert!(rt; stream.writer.taken.as_slice() == b"0123456789".as_slice());
    stream.writer.can_flush = false;
    assert!(rt; write_all(&mut stream, b"ab") == Ok(()));
    assert!(rt; write_out(&mut stream, b"cd") == Err(WriteFault));
    assert!(rt; stream.writer.taken.as_slice() == b"0123456789abcd".as_slice());
    let mut stream = Duplex::new(io::empty(), slow_writer(rt.alloc(), 5, None));
    assert!(rt; write_all(&mut stream, b"0123456789") == Err(WriteFault));
    assert!(rt; stream.writer.taken.as_slice() == b"01234".as_slice());
    assert!(rt; stream.take(b"5") == Taken::Nothing);
    stream.writer.full = Some(ErrorKind::WouldBlock);
    assert!(rt; stream.take(b"5") == Taken::Nothing);
    stream.writer.full = Some(ErrorKind::StorageFull);
    assert!(rt; stream.take(b"5") == Taken::Fault);
}

#[test]
fn bytes_in_memory_are_a_stream(rt: HostRuntime) {
    let mut taken = Vec::new(rt.alloc());
    let mut stream = Memory::new(b"0123456789", &mut taken);
    let front = read_up_to(rt.alloc(), &mut stream, 4).expect(&rt, "a front");
    assert!(rt; front.as_slice() == b"0123".as_slice());
    assert!(rt; stream.bytes == b"456789".as_slice());
    assert!(rt; write_out(&mut stream, b"ab") == Ok(()));
    assert!(rt; taken.as_slice() == b"ab".as_slice());
}
