//! A check: a written job beside its input, by a certificate, each from a file.

ghost use Rattle.pcl_command.specs.Checks.{IsCheckRun, IsCheckedBeside};

use pcl_base::{Dpi, Profile};
use pcl_files::{JobFiles, read_file};
use pcl_messages::answer_line;
use pcl_request::{Beside, CheckedFiles, resolve};
use pcl_streams::{Fault, Watcher, write_all};
use pcl_tool::{CheckAnswer, check_images, check_job_watched};
use std::alloc::Global;
use std::io::Write;

/// Reads the files, checks the job, and writes the line of the verdict. The input or the images are read first; the reporter is called
/// for each page that is done, and at the end, before the line is written. Nothing is written after any fault but of a write, and
/// then a prefix of the line.
pub fn check<F: JobFiles, W: Write, P: Watcher>(
    files: &F,
    alloc: Global,
    asked: CheckedFiles<'_>,
    out: &mut W,
    reporter: P,
) -> Result<CheckAnswer, Fault>
    ensures { IsCheckRun F.acts files.now asked.entry (W.contents out.old) (W.contents out.new) result }
{
    let input = read_file(files, alloc, asked.input)?;
    let output = read_file(files, alloc, asked.output)?;
    let certificate = read_file(files, alloc, asked.certificate)?;
    let checked = CheckedBytes {
        input: &input,
        output: &output,
        certificate: &certificate,
    };
    let performed = asked.beside.performed(checked.input, checked.output);
    let dpi = resolve(alloc, asked.resolution, Profile::Stated, performed)?;
    let answer = answer(alloc, asked.beside, checked, dpi, reporter)?;
    let line = answer_line(alloc, asked.layout, &answer)?;
    write_all(out, &line)?;
    Ok(answer)
}

/// The bytes of the files of a check.
#[derive(Clone, Copy)]
struct CheckedBytes<'a> {
    input: &'a [u8],
    output: &'a [u8],
    certificate: &'a [u8],
}

/// The verdict on a written job beside its input, or beside images of its pages.
fn answer<P: Watcher>(
    alloc: Global,
    beside: Beside,
    checked: CheckedBytes<'_>,
    dpi: Dpi,
    reporter: P,
) -> Result<CheckAnswer, Fault>
    ensures { IsCheckedBeside beside dpi checked.entry.input.now checked.entry.output.now checked.entry.certificate.now result }
{
    let CheckedBytes {
        input,
        output,
        certificate,
    } = checked;
    match beside {
        Beside::Input => {
            let verdict = check_job_watched(alloc, input, output, certificate, dpi, reporter)?;
            Ok(CheckAnswer::Job(verdict))
        }
        Beside::Images => check_images(alloc, input, output, certificate, dpi, reporter),
    }
}
