//! Readers and writers that are slow or fail.
use std::io;
use std::io::{ErrorKind, Read, Write};

/// How many bytes a read gives and a write takes, how many reads and writes there are before one
/// fails, and whether it fails by taking no byte.
#[derive(Clone, Copy)]
pub struct Streams {
    pub pace: usize,
    pub reads: usize,
    pub writes: usize,
    pub takes_none: bool,
}

/// Streams that give and take all at once, and do not fail.
pub const WHOLE: Streams = Streams {
    pace: usize::MAX,
    reads: usize::MAX,
    writes: usize::MAX,
    takes_none: false,
};

/// A failure, of another kind for each of five numbers in a row.
fn failure(number: usize) -> io::Error {
    io::Error::from(match number % 5 {
        0 => ErrorKind::Interrupted,
        1 => ErrorKind::WouldBlock,
        2 => ErrorKind::TimedOut,
        3 => ErrorKind::UnexpectedEof,
        _ => ErrorKind::Other,
    })
}

/// Gives as many bytes a read as its pace says. Once no read is left one fails, and a read after
/// that one would go on.
#[derive(Drop)]
pub struct Reader<'a> {
    pub bytes: &'a [u8],
    pub pace: usize,
    pub reads_left: usize,
}

impl Read for Reader<'_> {
    fn read(&mut self, buffer: &mut [u8]) -> io::Result<usize> {
        if self.reads_left == 0 {
            self.reads_left = usize::MAX;
            return Err(failure(self.bytes.len()));
        }
        self.reads_left -= 1;
        let count = self.bytes.len().min(buffer.len()).min(self.pace);
        buffer[..count].copy_from_slice(&self.bytes[..count]);
        self.bytes = &self.bytes[count..];
        Ok(count)
    }
}

/// Takes as many bytes a write as its pace says. Once no write is left one takes 0 bytes, or fails,
/// and a write after that one would go on.
#[derive(Drop)]
pub struct Writer {
    pub held: Vec<u8>,
    pub pace: usize,
    pub writes_left: usize,
    pub takes_none: bool,
}

impl Write for Writer {
    fn write(&mut self, bytes: &[u8]) -> io::Result<usize> {
        if self.writes_left == 0 {
            self.writes_left = usize::MAX;
            return if self.takes_none {
                Ok(0)
            } else {
                Err(failure(self.held.len()))
            };
        }
        self.writes_left -= 1;
        let count = bytes.len().min(self.pace);
        self.held.extend_from_slice(&bytes[..count])?;
        Ok(count)
    }

    fn flush(&mut self) -> io::Result<()> {
        Ok(())
    }
}
