//! Standard input, with a hint where a person is to type it.

use crate::troubles::Troubles;
use std::io::{self, IsTerminal, Read};

/// What is typed on a terminal.
#[derive(Clone, Copy)]
pub enum Typed {
    /// A job.
    Job,
    /// The names of the jobs of a batch.
    Names,
}

impl Typed {
    /// What is said before the first read of a terminal.
    fn hint(self) -> &'static str {
        match self {
            Typed::Job =>
                "pclmin: the job is read from this terminal: end it with control D, or give a file\n",
            Typed::Names =>
                "pclmin: names of jobs are read from this terminal, one a line: end them with control D, or give files\n",
        }
    }
}

/// Standard input. Where it is a terminal, a hint comes on standard error before the first read, unless nothing is to be said.
#[derive(Drop)]
pub struct Input<'a, R> {
    rt: &'a HostRuntime,
    reader: R,
    /// What is typed; none where nothing is to be said of it.
    typed: Option<Typed>,
    troubles: &'a Troubles,
    has_begun: bool,
}

impl<'a, R: Read> Input<'a, R> {
    pub fn new(
        rt: &'a HostRuntime,
        reader: R,
        typed: Option<Typed>,
        troubles: &'a Troubles,
    ) -> Input<'a, R> {
        Input {
            rt,
            reader,
            typed,
            troubles,
            has_begun: false,
        }
    }
}

impl<R: Read> Read for Input<'_, R> {
    fn read(&mut self, buf: &mut [u8]) -> io::Result<usize> {
        let is_first = !self.has_begun;
        self.has_begun = true;
        if let Some(typed) = self.typed {
            if is_first && self.rt.stdin().is_terminal() {
                let _ = self.rt.eprint(typed.hint());
            }
        }
        let read = self.reader.read(buf);
        match &read {
            Ok(count) if is_first => self.troubles.begin(buf.get(..*count).unwrap_or(&[])),
            Ok(_) => {}
            Err(_) => self.troubles.forget(),
        }
        read
    }
}
