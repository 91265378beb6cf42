//! Readers and writers in memory, as devices.

use std::io;
use std::io::{ErrorKind, Read, Write};
use tp_device::{Failed, FromRead, Sink, Source, ToWrite, push_all};

/// What two pulls answer.
fn pulls<R: Read + Drop>(
    reader: R,
    first: &mut [u8],
    second: &mut [u8],
) -> (Result<usize, Failed>, Result<usize, Failed>) {
    let mut source = FromRead::new(reader);
    (source.pull(first), source.pull(second))
}

/// What a push answers, and then a push of all of some bytes.
fn pushes<W: Write + Drop>(
    writer: W,
    first: &[u8],
    second: &[u8],
) -> (Result<usize, Failed>, Result<(), Failed>) {
    let mut sink = ToWrite::new(writer);
    (sink.push(first), push_all(&mut sink, second))
}

/// A reader and writer that always fails.
#[derive(Drop)]
struct Broken;

impl Read for Broken {
    fn read(&mut self, _buf: &mut [u8]) -> io::Result<usize> {
        Err(io::Error::from(ErrorKind::Interrupted))
    }
}

impl Write for Broken {
    fn write(&mut self, _buf: &[u8]) -> io::Result<usize> {
        Err(io::Error::from(ErrorKind::BrokenPipe))
    }

    fn flush(&mut self) -> io::Result<()> {
        Ok(())
    }
}

/// A writer that takes three bytes in all, one at a time.
#[derive(Drop)]
struct Narrow {
    room: usize,
}

impl Write for Narrow {
    fn write(&mut self, buf: &[u8]) -> io::Result<usize> {
        if self.room == 0 || buf.is_empty() {
            return Ok(0);
        }
        self.room -= 1;
        Ok(1)
    }

    fn flush(&mut self) -> io::Result<()> {
        Ok(())
    }
}

#[test]
fn a_source_gives_its_bytes_and_then_none(rt: HostRuntime) {
    let mut first = [0; 3];
    let mut second = [0; 3];
    let answers = pulls(b"abc".as_slice(), &mut first, &mut second);
    assert!(rt; answers == (Ok(3), Ok(0)) && first == *b"abc");
    let answers = pulls(Broken, &mut first, &mut second);
    assert!(rt; answers == (Err(Failed), Err(Failed)));
}

#[test]
fn a_sink_hands_on_what_is_pushed(rt: HostRuntime) {
    let mut room = [0; 5];
    let answers = pushes(room.as_mut_slice(), b"", b"abcde");
    assert!(rt; answers == (Ok(0), Ok(())) && room == *b"abcde");
    let answers = pushes(Broken, b"a", b"b");
    assert!(rt; answers == (Err(Failed), Err(Failed)));
}

// A push that takes nothing has failed, if something was pushed.
#[test]
fn a_writer_that_takes_three_bytes(rt: HostRuntime) {
    let answers = pushes(Narrow { room: 3 }, b"ab", b"cd");
    assert!(rt; answers == (Ok(1), Ok(())));
    let answers = pushes(Narrow { room: 3 }, b"a", b"bcd");
    assert!(rt; answers == (Ok(1), Err(Failed)));
    let answers = pushes(Narrow { room: 0 }, b"a", b"");
    assert!(rt; answers == (Err(Failed), Ok(())));
}
