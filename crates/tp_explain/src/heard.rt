//! Readers and writers that are listened to. What goes through them is what would go through
//! without.

use std::cell::RefCell;
use std::io;
use std::io::{Read, Write};

/// Who listens to the streams of a call.
pub(crate) trait Listener {
    /// These bytes were read of the standard input.
    fn input(&mut self, bytes: &[u8]);

    /// These bytes went to the standard output.
    fn output(&mut self, bytes: &[u8]);

    /// These bytes went to standard error.
    fn fault(&mut self, bytes: &[u8]);
}

/// A reader whose bytes are heard.
#[derive(Drop)]
pub(crate) struct HeardInput<'h, R, H> {
    pub(crate) reader: R,
    pub(crate) listener: &'h RefCell<H>,
}

impl<R: Read, H: Listener> Read for HeardInput<'_, R, H> {
    ghost remaining = { λ s. R.remaining s.reader };

    fn read(&mut self, buf: &mut [u8]) -> io::Result<usize> {
        let count = self.reader.read(buf)?;
        if let Ok(mut listener) = self.listener.try_borrow_mut() {
            listener.input(&buf[..count]);
        }
        Ok(count)
    }
}

/// A reader of which all bytes are kept, as far as there is memory.
#[derive(Drop)]
pub(crate) struct KeptInput<'h, R> {
    pub(crate) reader: R,
    pub(crate) kept: &'h RefCell<Vec<u8>>,
}

impl<R: Read> Read for KeptInput<'_, R> {
    ghost remaining = { λ s. R.remaining s.reader };

    fn read(&mut self, buf: &mut [u8]) -> io::Result<usize> {
        let count = self.reader.read(buf)?;
        if let Ok(mut kept) = self.kept.try_borrow_mut() {
            let _refused = kept.extend_from_slice(&buf[..count]).is_err();
        }
        Ok(count)
    }
}

/// A writer of answers that are heard once they went out.
#[derive(Drop)]
pub(crate) struct HeardOutput<'h, W, H> {
    pub(crate) writer: W,
    pub(crate) listener: &'h RefCell<H>,
}

impl<W: Write, H: Listener> Write for HeardOutput<'_, W, H> {
    ghost contents = { λ s. W.contents s.writer };

    fn write(&mut self, buf: &[u8]) -> io::Result<usize> {
        let count = self.writer.write(buf)?;
        if let Ok(mut listener) = self.listener.try_borrow_mut() {
            listener.output(&buf[..count]);
        }
        Ok(count)
    }

    fn flush(&mut self) -> io::Result<()> {
        self.writer.flush()
    }
}

/// A writer of fault lines that are heard.
#[derive(Drop)]
pub(crate) struct HeardFaults<'h, V, H> {
    pub(crate) writer: V,
    pub(crate) listener: &'h RefCell<H>,
}

impl<V: Write, H: Listener> Write for HeardFaults<'_, V, H> {
    ghost contents = { λ s. V.contents s.writer };

    fn write(&mut self, buf: &[u8]) -> io::Result<usize> {
        let count = self.writer.write(buf)?;
        if let Ok(mut listener) = self.listener.try_borrow_mut() {
            listener.fault(&buf[..count]);
        }
        Ok(count)
    }

    fn flush(&mut self) -> io::Result<()> {
        self.writer.flush()
    }
}
