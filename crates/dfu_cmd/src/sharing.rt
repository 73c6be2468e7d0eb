//! An output that several writers share.

use std::cell::RefCell;
use std::io::{self, BufWriter, ErrorKind, Write};

/// A buffered output. After a failed write, it writes nothing more.
#[derive(Drop)]
struct Output<W: Write + Drop> {
    buffer: BufWriter<W>,
    is_broken: bool,
}

/// An output that several writers share. It writes their bytes in the order of their writes.
#[derive(Drop)]
pub(crate) struct Shared<W: Write + Drop>(RefCell<Output<W>>);

impl<W: Write + Drop> Shared<W> {
    /// Returns an output with this buffer, which hasn't failed so far.
    pub(crate) fn new(buffer: BufWriter<W>) -> Shared<W> {
        Shared(RefCell::new(Output {
            buffer,
            is_broken: false,
        }))
    }

    /// Returns a new writer for the output.
    pub(crate) fn writer(&self) -> SharedWriter<'_, W> {
        SharedWriter(self)
    }

    /// Flushes the buffer. Returns true if all bytes of all writers are written.
    pub(crate) fn finish(self) -> bool {
        let Output { buffer, is_broken } = self.0.into_inner();
        if is_broken {
            // Dropping the buffer would write its bytes again, so the buffer is taken apart.
            let _ = buffer.into_parts();
            return false;
        }
        match buffer.into_inner() {
            Ok(_) => true,
            Err(error) => {
                let _ = error.into_inner().into_parts();
                false
            }
        }
    }
}

/// One of the writers of a shared output.
#[derive(Drop)]
pub(crate) struct SharedWriter<'o, W: Write + Drop>(&'o Shared<W>);

/// Returns the error for an output that has failed before.
fn broken_output() -> io::Error {
    io::Error::from(ErrorKind::BrokenPipe)
}

impl<W: Write + Drop> Write for SharedWriter<'_, W> {
    fn write(&mut self, buf: &[u8]) -> io::Result<usize> {
        let Ok(mut output) = self.0.0.try_borrow_mut() else {
            return Err(broken_output());
        };
        if output.is_broken {
            return Err(broken_output());
        }
        let answer = output.buffer.write(buf);
        output.is_broken = answer.is_err();
        answer
    }

    fn flush(&mut self) -> io::Result<()> {
        let Ok(mut output) = self.0.0.try_borrow_mut() else {
            return Err(broken_output());
        };
        if output.is_broken {
            return Err(broken_output());
        }
        let answer = output.buffer.flush();
        output.is_broken = answer.is_err();
        answer
    }
}
