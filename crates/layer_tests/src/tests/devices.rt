//! Readers that give little or fail, and writers that take little or fail.

use std::alloc::Global;
use std::io;
use std::io::{ErrorKind, Read, Write};

/// Gives its bytes, at most this many a read; one of its reads fails.
#[derive(Drop)]
pub struct FailingReader<'a> {
    /// The bytes that are left.
    pub rest: &'a [u8],
    /// The most bytes of a read.
    pub most: usize,
    /// How many reads come before the one that fails.
    pub good: Option<usize>,
    /// How the read fails.
    pub kind: ErrorKind,
}

impl Read for FailingReader<'_> {
    fn read(&mut self, buf: &mut [u8]) -> io::Result<usize> {
        if self.good == Some(0) {
            self.good = None;
            return Err(io::Error::from(self.kind));
        }
        self.good = self.good.map(|good| good.saturating_sub(1));
        let count = buf.len().min(self.most).min(self.rest.len());
        buf[..count].copy_from_slice(&self.rest[..count]);
        self.rest = &self.rest[count..];
        Ok(count)
    }
}

/// Holds what it takes, at most this many bytes a write; one of its writes fails, and flushing may.
#[derive(Drop)]
pub struct Held {
    /// The bytes that were taken.
    pub bytes: Vec<u8>,
    /// The most bytes of a write.
    pub most: usize,
    /// How many writes come before the one that fails.
    pub good: Option<usize>,
    /// Whether flushing fails.
    pub flush_fails: bool,
    /// How often it was flushed.
    pub flushes: usize,
}

/// A writer that holds nothing yet, and never fails.
pub(super) fn taking(alloc: Global, most: usize) -> Held {
    failing(alloc, most, None, false)
}

/// A writer that holds nothing yet, one of whose writes may fail, or its flushing.
pub(super) fn failing(alloc: Global, most: usize, good: Option<usize>, flush_fails: bool) -> Held {
    Held {
        bytes: Vec::new(alloc),
        most,
        good,
        flush_fails,
        flushes: 0,
    }
}

impl Write for Held {
    fn write(&mut self, buf: &[u8]) -> io::Result<usize> {
        if self.good == Some(0) {
            self.good = None;
            return Err(io::Error::from(ErrorKind::Interrupted));
        }
        self.good = self.good.map(|good| good.saturating_sub(1));
        let count = buf.len().min(self.most);
        self.bytes.extend_from_slice(&buf[..count])?;
        Ok(count)
    }

    fn flush(&mut self) -> io::Result<()> {
        self.flushes = self.flushes.saturating_add(1);
        if self.flush_fails {
            return Err(io::Error::from(ErrorKind::BrokenPipe));
        }
        Ok(())
    }
}
