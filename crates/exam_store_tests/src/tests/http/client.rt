//! A client of the server that is slow, and may fail.
use exam_http::{HttpFault, serve_one};
use exam_school::Words;
use exam_store::Store;
use sqlite::MemStore;
use std::alloc::Global;
use std::io::{self, ErrorKind, Read, Write};
use std::test::Fail;

/// Gives at most so many bytes at a time. After the last one it ends, or fails.
#[derive(Drop)]
pub struct Giving<'a> {
    pub left: &'a [u8],
    pub step: usize,
    pub fails: bool,
}

impl Read for Giving<'_> {
    fn read(&mut self, buf: &mut [u8]) -> io::Result<usize> {
        if self.fails && self.left.is_empty() {
            return Err(io::Error::from(ErrorKind::ConnectionReset));
        }
        let count = buf.len().min(self.step).min(self.left.len());
        buf[..count].copy_from_slice(&self.left[..count]);
        self.left = &self.left[count..];
        Ok(count)
    }
}

/// Takes so many bytes one by one, and then fails.
#[derive(Drop)]
struct Taking {
    taken: Vec<u8>,
    most: usize,
}

impl Write for Taking {
    fn write(&mut self, buf: &[u8]) -> io::Result<usize> {
        match buf {
            [first, ..] if self.taken.len() < self.most => {
                self.taken.push(*first)?;
                Ok(1)
            }
            _ => Err(io::Error::from(ErrorKind::BrokenPipe)),
        }
    }

    fn flush(&mut self) -> io::Result<()> {
        Ok(())
    }
}

/// The outcome of a request on a day, and the bytes that are written if the client takes at most so many.
pub fn serve(
    alloc: Global,
    store: &mut Store<MemStore>,
    on: &str,
    mut request: Giving<'_>,
    most: usize,
) -> Result<(Result<(), HttpFault>, Vec<u8>), Fail> {
    let mut answer = Taking {
        taken: Vec::new(alloc),
        most,
    };
    let served = serve_one(
        alloc,
        store,
        Words::of(on).day()?,
        &mut request,
        &mut answer,
    );
    Ok((served, answer.taken))
}
