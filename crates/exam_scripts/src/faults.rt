//! Import files and standard outputs; some fail.
use std::alloc::Global;
use std::io::{self, ErrorKind, Read, Write};

/// An import file.
#[derive(Drop)]
pub struct Source<'a> {
    bytes: &'a [u8],
    /// Whether it gives its bytes one by one, and each other read is interrupted.
    is_slow: bool,
    is_interrupted: bool,
    /// Whether it fails behind its bytes.
    is_torn: bool,
}

impl Source<'_> {
    /// A file that gives these bytes and ends.
    pub fn whole(bytes: &[u8]) -> Source<'_> {
        Source {
            bytes,
            is_slow: false,
            is_interrupted: false,
            is_torn: false,
        }
    }

    /// A slow file that fails behind so many of these bytes, or ends if there are fewer.
    pub fn torn(bytes: &[u8], count: usize) -> Source<'_> {
        let left = bytes.get(..count);
        Source {
            bytes: left.unwrap_or(bytes),
            is_slow: true,
            is_interrupted: false,
            is_torn: left.is_some(),
        }
    }
}

impl Read for Source<'_> {
    fn read(&mut self, buf: &mut [u8]) -> io::Result<usize> {
        if !self.is_slow {
            return self.bytes.read(buf);
        }
        self.is_interrupted = !self.is_interrupted;
        if self.is_interrupted {
            return Err(io::Error::from(ErrorKind::Interrupted));
        }
        match (self.bytes, buf) {
            ([first, rest @ ..], [place, ..]) => {
                *place = *first;
                self.bytes = rest;
                Ok(1)
            }
            _ if self.is_torn => Err(io::Error::from(ErrorKind::Other)),
            _ => Ok(0),
        }
    }
}

/// A standard output.
#[derive(Drop)]
pub struct Output {
    taken: Vec<u8>,
    room: usize,
    /// Whether it fails where it is to hand on what it took.
    holds_back: bool,
}

impl Output {
    /// An output with room for so many bytes.
    pub fn with_room(alloc: Global, room: usize) -> Output {
        Output {
            taken: Vec::new(alloc),
            room,
            holds_back: false,
        }
    }

    /// An output that takes everything and hands nothing on.
    pub fn held_back(alloc: Global) -> Output {
        Output {
            taken: Vec::new(alloc),
            room: usize::MAX,
            holds_back: true,
        }
    }

    pub fn taken(&self) -> &[u8] {
        self.taken.as_slice()
    }
}

impl Write for Output {
    fn write(&mut self, buf: &[u8]) -> io::Result<usize> {
        let count = buf.len().min(self.room);
        self.taken.extend_from_slice(&buf[..count])?;
        self.room -= count;
        Ok(count)
    }

    fn flush(&mut self) -> io::Result<()> {
        if self.holds_back {
            return Err(io::Error::from(ErrorKind::Other));
        }
        Ok(())
    }
}
