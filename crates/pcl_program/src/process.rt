//! The process of `pclmin`: its words, its standard streams, the files of the system, its line and its status.

use crate::faults::{print_failure, print_line};
use crate::manner::Manner;
use crate::running::{exit_status, run};
use clap::Error;
use pcl_messages::{Ending, Failure, refuse_arguments};
use pcl_streams::Fault;
use pcl_system::{Input, OutputStream, SystemFiles, Troubles, Voice};
use std::alloc::AllocError;
use std::env;
use std::io::{self, ErrorKind, IsTerminal};
use std::process::ExitCode;

/// Does what the words of the command line ask for, and gives the status. It has the files of the system, standard input and
/// standard output, and prints on standard error what is to be said.
pub fn run_process(rt: &HostRuntime) -> ExitCode {
    let status = match arguments(rt) {
        Ok(Some(words)) => run_words(rt, &words),
        Ok(None) => fail(rt, &refuse_arguments(rt.alloc())),
        Err(AllocError) => fail(rt, &Failure::NoMemory),
    };
    ExitCode::from(status)
}

/// Does what words ask for, prints what is left to be printed, and gives the status.
fn run_words(rt: &HostRuntime, words: &[String]) -> u8 {
    let troubles = Troubles::new();
    let manner = Manner::of(rt.alloc(), words);
    let ended = run(
        &mut SystemFiles::new(rt, &troubles, manner.replacing),
        rt.alloc(),
        words,
        &mut Input::new(rt, rt.reader(), manner.typed(), &troubles),
        &mut OutputStream::new(io::writer(rt), &troubles),
        rt.stdout().is_terminal(),
        Voice::new(rt),
    );
    end(rt, &ended, words, manner, &troubles)
}

/// The words of the command line, the program's name first; none where one of them isn't text.
fn arguments(rt: &HostRuntime) -> Result<Option<Vec<String>>, AllocError> {
    match env::args(rt) {
        Ok(words) => Ok(Some(words.collect(rt.alloc())?)),
        Err(error) if error.kind() == ErrorKind::OutOfMemory => Err(AllocError),
        Err(_) => Ok(None),
    }
}

/// Prints what is left to be printed, and gives the status. What standard error doesn't take is lost.
fn end(
    rt: &HostRuntime,
    ended: &Result<Ending, Error>,
    words: &[String],
    manner: Manner,
    troubles: &Troubles,
) -> u8 {
    match ended {
        Ok(Ending::Done | Ending::Checked(_) | Ending::Compared(_)) => {}
        Ok(Ending::Failed(failure)) => {
            print_failure(rt, failure, words, manner, troubles);
        }
        Err(error) => {
            if error.print(rt).is_err() && !error.use_stderr() {
                return fail(rt, &Failure::of(rt.alloc(), &Fault::WriteFault, 0));
            }
        }
    }
    exit_status(ended)
}

/// Prints the line of a failure, and gives the status.
fn fail(rt: &HostRuntime, failure: &Failure) -> u8 {
    print_line(rt, failure);
    failure.status()
}
