//! A writer that takes little at a time, and may fail.
use std::alloc::{AllocError, Global};
use std::io;
use std::io::Write;

/// Takes at most so many bytes at a call, and fails once its room is full.
#[derive(Drop)]
pub struct Slow {
    pub taken: Vec<u8>,
    step: usize,
    room: usize,
}

impl Slow {
    pub fn new(alloc: Global, step: usize, room: usize) -> Self {
        Slow {
            taken: Vec::new(alloc),
            step,
            room,
        }
    }
}

impl Write for Slow {
    fn write(&mut self, buf: &[u8]) -> io::Result<usize> {
        if self.room == 0 {
            return Err(io::Error::from(AllocError));
        }
        let count = buf.len().min(self.step).min(self.room);
        self.taken.extend_from_slice(&buf[..count])?;
        self.room -= count;
        Ok(count)
    }

    fn flush(&mut self) -> io::Result<()> {
        Ok(())
    }
}
