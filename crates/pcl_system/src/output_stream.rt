//! Standard output.

use crate::troubles::Troubles;
use std::io::{self, Write};

/// Standard output. Where it fails, no named file has.
#[derive(Drop)]
pub struct OutputStream<'a, W> {
    writer: W,
    troubles: &'a Troubles,
}

impl<'a, W: Write> OutputStream<'a, W> {
    ghost use Rattle.std.specs.Prelude.{◌≡◌};

    pub fn new(writer: W, troubles: &'a Troubles) -> OutputStream<'a, W> {
        OutputStream { writer, troubles }
    }

    /// What came of a write. An error of it is no file's.
    fn came<T>(&self, done: io::Result<T>) -> io::Result<T>
        ensures { result ≡ done }
    {
        if let Err(error) = &done {
            self.troubles.note_output(error);
        }
        done
    }
}

impl<W: Write> Write for OutputStream<'_, W> {
    fn write(&mut self, buf: &[u8]) -> io::Result<usize> {
        let written = self.writer.write(buf);
        self.came(written)
    }

    fn flush(&mut self) -> io::Result<()> {
        let flushed = self.writer.flush();
        self.came(flushed)
    }
}
