//! A run by the words of a command line, and its status.

ghost use Rattle.std.specs.Prelude.{◌⊎◌, ◌↔◌, map, IsTrue};
ghost use Rattle.pcl_files.specs.World.{world, world_found, world_left};
ghost use Rattle.pcl_program.specs.Runs.{IsShown, HasRunAsked, HasRunWords, AskForBatch, IsExitStatus};

use crate::rewriting::Filter;
use clap::Error;
use clap::error::ErrorKind;
use pcl_arguments::{parse_batch, parse_request};
use pcl_batch::run_named;
use pcl_command::carry_out;
use pcl_files::{JobFiles, Surroundings};
use pcl_messages::{Ending, Failure, USAGE_STATUS, refuse_terminal};
use pcl_request::Request;
use pcl_streams::Reporter;
use std::alloc::Global;
use std::convert::AsStr;
use std::io::{Read, Write};

/// Does what the words of a command line ask for, the program's name first. It is as [`run_request`] says, or a batch, whose jobs
/// may be named by the reader.
pub fn run<F: JobFiles, S: AsStr, R: Read, W: Write, P: Reporter>(
    files: &mut F,
    alloc: Global,
    words: &[S],
    reader: &mut R,
    out: &mut W,
    is_terminal: bool,
    reporter: P,
) -> Result<Ending, Error>
    ensures { AskForBatch (map S.text words.now) ⊎ HasRunWords F.acts is_terminal
        (world files.old (R.remaining reader.old) (W.contents out.old))
        (world files.new (R.remaining reader.new) (W.contents out.new)) result }
{
    let surroundings = Surroundings {
        files,
        reader,
        out,
        alloc,
        reporter,
    };
    if ask_for_batch(words) {
        return run_batch_words(surroundings, words, is_terminal);
    }
    let request = parse_request(alloc, words);
    run_request(surroundings, request, is_terminal)
}

/// Whether the words of a command line ask for a batch.
pub(crate) fn ask_for_batch<S: AsStr>(words: &[S]) -> bool
    ensures { IsTrue result ↔ AskForBatch (map S.text words.now) }
{
    match words {
        [_, word, ..] => word.as_str() == "batch",
        _ => false,
    }
}

/// Runs the batch that words ask for. Where the writer is a terminal, or the batch a quiet one, the reporter isn't called.
fn run_batch_words<F: JobFiles, S: AsStr, R: Read, W: Write, P: Reporter>(
    surroundings: Surroundings<'_, '_, '_, F, R, W, P>,
    words: &[S],
    is_terminal: bool,
) -> Result<Ending, Error> {
    let Surroundings {
        files,
        reader,
        out,
        alloc,
        reporter,
    } = surroundings;
    let asked = match parse_batch(alloc, words) {
        Ok(asked) => asked,
        Err(error) => return shown(error),
    };
    let is_silent = is_terminal || asked.batch.quiet;
    let surroundings = Surroundings {
        files,
        reader,
        out,
        alloc,
        reporter: if is_silent { None } else { Some(reporter) },
    };
    match run_named(surroundings, asked.batch, &asked.paths, Filter) {
        Ok(()) => Ok(Ending::Done),
        Err(failure) => Ok(Ending::Failed(failure)),
    }
}

/// Does what is asked for, with the job that a reader gives. The reporter is called for each page that is done, unless silence is
/// asked for, and for what there is to say besides. Where the writer is a terminal, no job and no image is written to it. An error is
/// the help, the version or a usage fault, whose text is to be printed: then no file is made, nothing is read and nothing written.
pub fn run_request<F: JobFiles, R: Read, W: Write, P: Reporter>(
    surroundings: Surroundings<'_, '_, '_, F, R, W, P>,
    asked: Result<Request<'_>, Error>,
    is_terminal: bool,
) -> Result<Ending, Error>
    ensures { HasRunAsked F.acts is_terminal asked.entry (world_found R.remaining W.contents surroundings.entry)
        (world_left R.remaining W.contents surroundings.exit) result }
{
    match asked {
        Ok(request) if is_terminal && request.writes_raw() => {
            Ok(Ending::Failed(refuse_terminal(surroundings.alloc)))
        }
        Ok(request) => Ok(carry_out(surroundings, request)),
        Err(error) => shown(error),
    }
}

/// What is to be shown where words ask for nothing that is done, unless memory ran out before that was known.
fn shown(error: Error) -> Result<Ending, Error>
    ensures { IsShown error result }
{
    match error.kind() {
        ErrorKind::OutOfMemory => Ok(Ending::Failed(Failure::NoMemory)),
        _ => Err(error),
    }
}

/// The status of the program after a run. It is that of its ending, or of what is shown in its
/// place.
pub fn exit_status(ended: &Result<Ending, Error>) -> u8
    ensures { IsExitStatus ended.now result }
{
    match ended {
        Ok(ending) => ending.status(),
        Err(error) => match error.kind() {
            ErrorKind::DisplayHelp | ErrorKind::DisplayVersion => 0,
            _ => USAGE_STATUS,
        },
    }
}
