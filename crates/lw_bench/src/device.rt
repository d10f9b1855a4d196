//! Devices that bytes are read from and written to. Each records whether it has failed.
ghost use Rattle.std.specs.Prelude.{◌≡◌, ℕ, ◌<◌, ◌≤◌, Option, Bool, List, false, length, IfOk, is_err};
ghost use Rattle.std.specs.Io.KnownBytes.{ReadConsumes, WriteAppends};

use std::io::{Read, Write};

/// The device failed. It must not be called again.
#[derive(Clone, Copy)]
pub struct Failed;

/// A source of bytes.
pub trait ByteReader {
    /// The bytes that remain, if they are known.
    ghost remaining: { Self → Option (List ℕ) };

    /// Whether a call has failed.
    ghost failed: { Self → Bool };

    /// Fills the start of the buffer with the next bytes, and returns their number, which is 0 only at the end or if
    /// the buffer is empty.
    fn pull(&mut self, buf: &mut [u8]) -> Result<usize, Failed>
        requires { failed self.old ≡ false }
        ensures bound { IfOk result (λ n. n ≤ length buf.new) }
        ensures failed { failed self.new ≡ is_err result }
        ensures bytes { ReadConsumes (remaining self.old) (remaining self.new) result buf.new };

    /// Returns whether a call has failed.
    fn has_failed(&self) -> bool
        ensures { result ≡ failed self.now };
}

/// A sink of bytes.
pub trait ByteWriter {
    /// The bytes that it holds, if they are known.
    ghost contents: { Self → Option (List ℕ) };

    /// Whether a call has failed.
    ghost failed: { Self → Bool };

    /// Writes a prefix of the bytes, and returns its length, which is at least 1 if there are bytes.
    fn put(&mut self, bytes: &[u8]) -> Result<usize, Failed>
        requires { failed self.old ≡ false }
        ensures bound { IfOk result (λ n. n ≤ length bytes.now) }
        ensures some { 0 < length bytes.now → IfOk result (λ n. 0 < n) }
        ensures failed { failed self.new ≡ is_err result }
        ensures bytes { WriteAppends (contents self.old) (contents self.new) result bytes.now };

    /// Returns whether a call has failed.
    fn has_failed(&self) -> bool
        ensures { result ≡ failed self.now };
}

/// A reader of the standard library. Every error is a failure, including an interruption.
#[derive(Drop)]
pub struct FromRead<R: Read + Drop> {
    pub reader: R,
    failed: bool,
}

impl<R: Read + Drop> FromRead<R> {
    /// Wraps a reader that has not failed.
    pub fn new(reader: R) -> Self
        ensures reader { result.reader ≡ reader }
        ensures failed { result.failed ≡ false }
    {
        FromRead {
            reader,
            failed: false,
        }
    }
}

impl<R: Read + Drop> ByteReader for FromRead<R> {
    ghost remaining = { λ r. R.remaining r.reader };

    ghost failed = { λ r. r.failed };

    /// Reads some bytes, and records a failure.
    fn pull(&mut self, buf: &mut [u8]) -> Result<usize, Failed> {
        match self.reader.read(buf) {
            Ok(count) => Ok(count),
            Err(_) => {
                self.failed = true;
                Err(Failed)
            }
        }
    }

    /// Returns whether a read has failed.
    fn has_failed(&self) -> bool {
        self.failed
    }
}

/// A writer of the standard library. Every error is a failure, including an interruption, and so is a write that
/// accepts none of one or more bytes.
#[derive(Drop)]
pub struct ToWrite<W: Write + Drop> {
    pub writer: W,
    failed: bool,
}

impl<W: Write + Drop> ToWrite<W> {
    /// Wraps a writer that has not failed.
    pub fn new(writer: W) -> Self
        ensures writer { result.writer ≡ writer }
        ensures failed { result.failed ≡ false }
    {
        ToWrite {
            writer,
            failed: false,
        }
    }
}

impl<W: Write + Drop> ByteWriter for ToWrite<W> {
    ghost contents = { λ w. W.contents w.writer };

    ghost failed = { λ w. w.failed };

    /// Writes some bytes, and records a failure.
    fn put(&mut self, bytes: &[u8]) -> Result<usize, Failed> {
        match self.writer.write(bytes) {
            Ok(count) if count > 0 || bytes.is_empty() => Ok(count),
            _ => {
                self.failed = true;
                Err(Failed)
            }
        }
    }

    /// Returns whether a write has failed.
    fn has_failed(&self) -> bool {
        self.failed
    }
}
