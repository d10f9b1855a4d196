//! Readers and writers that transfer one byte in each call. A call that the test chooses fails, or the input never ends.
use std::io::{self, ErrorKind, Read, Write};

/// A reader of a text: one byte in each call, and one of its calls may fail.
#[derive(Drop)]
pub(crate) struct Tape<'a> {
    text: &'a [u8],
    at: usize,
    failing: usize,
    error: ErrorKind,
    pub(crate) calls: usize,
}

impl<'a> Tape<'a> {
    /// Creates a reader that does not fail.
    pub(crate) fn new(text: &'a [u8]) -> Self {
        Tape::failing(text, 0, ErrorKind::Other)
    }

    /// Creates a reader whose call with the number `failing` fails with this error. The first call has number 1, so none fails if
    /// `failing` is 0.
    pub(crate) fn failing(text: &'a [u8], failing: usize, error: ErrorKind) -> Self {
        Tape {
            text,
            at: 0,
            failing,
            error,
            calls: 0,
        }
    }
}

impl Read for Tape<'_> {
    fn read(&mut self, buf: &mut [u8]) -> io::Result<usize> {
        self.calls = self.calls.saturating_add(1);
        if self.calls == self.failing {
            return Err(io::Error::from(self.error));
        }
        match (buf.first_mut(), self.text.get(self.at)) {
            (Some(room), Some(byte)) => {
                *room = *byte;
                self.at = self.at.saturating_add(1);
                Ok(1)
            }
            _ => Ok(0),
        }
    }
}

/// A reader that never ends: a byte 255 in each call.
#[derive(Drop)]
pub(crate) struct Endless {
    pub(crate) calls: usize,
}

impl Read for Endless {
    fn read(&mut self, buf: &mut [u8]) -> io::Result<usize> {
        self.calls = self.calls.saturating_add(1);
        match buf.first_mut() {
            Some(room) => {
                *room = 0xff;
                Ok(1)
            }
            None => Ok(0),
        }
    }
}

/// A writer to a sheet of fixed size: one byte in each call, and one of its calls may fail, with an error or by
/// writing nothing.
#[derive(Drop)]
pub(crate) struct Sheet {
    bytes: [u8; 4096],
    len: usize,
    failing: usize,
    error: Option<ErrorKind>,
    pub(crate) calls: usize,
}

impl Sheet {
    /// Creates a writer that does not fail.
    pub(crate) fn new() -> Self {
        Sheet::failing(0, None)
    }

    /// Creates a writer whose call with the number `failing` fails, with this error or, if there is none, by writing nothing. The first
    /// call has number 1, so none fails if `failing` is 0.
    pub(crate) fn failing(failing: usize, error: Option<ErrorKind>) -> Self {
        Sheet {
            bytes: [0; 4096],
            len: 0,
            failing,
            error,
            calls: 0,
        }
    }

    /// Returns whether this text was written, and nothing else.
    pub(crate) fn is(&self, text: &str) -> bool {
        self.len == text.len()
            && text
                .as_bytes()
                .iter()
                .zip(&self.bytes)
                .all(|(a, b)| *a == *b)
    }
}

impl Write for Sheet {
    fn write(&mut self, buf: &[u8]) -> io::Result<usize> {
        self.calls = self.calls.saturating_add(1);
        if self.calls == self.failing {
            return match self.error {
                Some(error) => Err(io::Error::from(error)),
                None => Ok(0),
            };
        }
        match (self.bytes.get_mut(self.len), buf.first()) {
            (Some(room), Some(byte)) => {
                *room = *byte;
                self.len = self.len.saturating_add(1);
                Ok(1)
            }
            _ => Ok(0),
        }
    }

    fn flush(&mut self) -> io::Result<()> {
        Ok(())
    }
}
