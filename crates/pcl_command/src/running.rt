//! A run: what is asked for is done, over any reader and writer.

ghost use Rattle.std.specs.Prelude.{◌≡◌, if◌then◌else◌, None, Some, IfOk};
ghost use Rattle.pcl_page.specs.Delivering.{IsRefusal, IsRefusalBy};
ghost use Rattle.pcl_tool.specs.Writing.{IsWrittenJob};
ghost use Rattle.pcl_request.specs.Requests.{widest_of};
ghost use Rattle.pcl_files.specs.World.{world, world_found, world_left};
ghost use Rattle.pcl_command.specs.Profiles.{IsWrittenUnder, IsWrittenEverywhereUnder, IsRefusedEverywhereUnder};
ghost use Rattle.pcl_command.specs.Runs.{HasChecked, HasCompared, HasDone, HasDoneRead, HasEnded, HasRun, HasWritten, IsJobRead};
ghost use Rattle.pcl_command.specs.Tasks.{ArePagesWritten, ExplainsIn, ExplainsKindIn, IsDone, NeverRefuses, TellsOfPages, WritesOrRefuses};

use crate::certifying::certify;
use crate::checks::check;
use crate::clashes::clashes;
use crate::comparisons::compare;
use crate::passes::{shrink_everywhere_reported, shrink_reported};
use crate::reporting::{report_no_page, report_shrunk};
use pcl_base::{Dpi, Kind, Profile};
use pcl_explain::{explanation, explanation_object, kind_explanation, kind_object};
use pcl_files::{JobFiles, Outlet, Surroundings, settle};
use pcl_messages::{Ending, Failure, refuse_clash};
use pcl_pages::describe_pages;
use pcl_preview::{ImageForm, PageChoice, preview_pages, stream_pages};
use pcl_request::{
    CheckedFiles, ComparedFiles, Layout, Request, Resolution, Run, Shrinking, Source, Target, Task,
    Work, resolve,
};
use pcl_streams::{Fault, Reporter, read_all, write_all};
use pcl_tool::{INPUT_LIMIT, least_job};
use std::alloc::{AllocError, Global};
use std::io::{Read, Write};

/// Does what is asked for, a run with the job that a reader gives. The reporter is called for each page that is done, unless the
/// request is a quiet one. Where a certificate or an image would take the place of a job's file, nothing is opened.
pub fn carry_out<F: JobFiles, R: Read, W: Write, P: Reporter>(
    surroundings: Surroundings<'_, '_, '_, F, R, W, P>,
    request: Request<'_>,
) -> Ending
    ensures { HasEnded F.acts request.entry (world_found R.remaining W.contents surroundings.entry)
        (world_left R.remaining W.contents surroundings.exit) result }
{
    if clashes(surroundings.files, request) {
        return Ending::Failed(refuse_clash(surroundings.alloc, request));
    }
    match request {
        Request::Run(run) => ending_of_run(surroundings, run),
        Request::Check(asked) => ending_of_check(surroundings, asked),
        Request::Compare(asked) => ending_of_comparison(surroundings, asked),
    }
}

/// Does a run, and says how it ends.
fn ending_of_run<F: JobFiles, R: Read, W: Write, P: Reporter>(
    surroundings: Surroundings<'_, '_, '_, F, R, W, P>,
    run: Run<'_>,
) -> Ending
    ensures { HasRun F.acts run.entry (world_found R.remaining W.contents surroundings.entry)
        (world_left R.remaining W.contents surroundings.exit) result }
{
    let Surroundings {
        files,
        reader,
        out,
        alloc,
        reporter,
    } = surroundings;
    let surroundings = Surroundings {
        files,
        reader,
        out,
        alloc,
        reporter: unless_quiet(run.quiet, reporter),
    };
    match do_run(surroundings, run) {
        Ok(()) => Ending::Done,
        Err(failure) => Ending::Failed(failure),
    }
}

/// Checks a job, and says how that ends.
fn ending_of_check<F: JobFiles, R: Read, W: Write, P: Reporter>(
    surroundings: Surroundings<'_, '_, '_, F, R, W, P>,
    asked: CheckedFiles<'_>,
) -> Ending
    ensures { HasChecked F.acts asked.entry (world_found R.remaining W.contents surroundings.entry)
        (world_left R.remaining W.contents surroundings.exit) result }
{
    let Surroundings {
        files,
        out,
        alloc,
        reporter,
        ..
    } = surroundings;
    let reporter = unless_quiet(asked.quiet, reporter);
    match check(files, alloc, asked, out, reporter) {
        Ok(answer) => Ending::Checked(answer),
        Err(fault) => Ending::Failed(Failure::of(alloc, &fault, 0)),
    }
}

/// Compares two jobs, and says how that ends.
fn ending_of_comparison<F: JobFiles, R: Read, W: Write, P: Reporter>(
    surroundings: Surroundings<'_, '_, '_, F, R, W, P>,
    asked: ComparedFiles<'_>,
) -> Ending
    ensures { HasCompared F.acts asked.entry (world_found R.remaining W.contents surroundings.entry)
        (world_left R.remaining W.contents surroundings.exit) result }
{
    let Surroundings {
        files,
        out,
        alloc,
        ..
    } = surroundings;
    match compare(files, alloc, asked, out) {
        Ok(comparison) => Ending::Compared(comparison),
        Err(fault) => Ending::Failed(Failure::of_comparison(alloc, &fault)),
    }
}

/// The reporter of a run: none where it is to be quiet.
fn unless_quiet<P: Reporter>(quiet: bool, reporter: P) -> Option<P>
    ensures { result ≡ (if quiet then None else Some reporter) }
{
    if quiet { None } else { Some(reporter) }
}

/// Does a run with the job of its source. The fault of a file that can't be opened comes too.
fn do_run<F: JobFiles, R: Read, W: Write, P: Reporter>(
    surroundings: Surroundings<'_, '_, '_, F, R, W, P>,
    run: Run<'_>,
) -> Result<(), Failure>
    ensures { HasDone F.acts run.entry run.entry.source (world_found R.remaining W.contents surroundings.entry)
        (world_left R.remaining W.contents surroundings.exit) result }
{
    match run.source {
        Source::StandardInput => write_result(surroundings, run),
        Source::File(name) => match surroundings.files.open(name) {
            Ok(mut file) => {
                let Surroundings {
                    files,
                    reader: _,
                    out,
                    alloc,
                    reporter,
                } = surroundings;
                let surroundings = Surroundings {
                    files,
                    reader: &mut file,
                    out,
                    alloc,
                    reporter,
                };
                write_result(surroundings, run)
            }
            Err(_) => Err(Failure::of(surroundings.alloc, &Fault::ReadFault, 0)),
        },
    }
}

/// Does a run with the job that a reader gives, and writes to its target. The fault of a file that can't be begun or placed comes too.
fn write_result<F: JobFiles, R: Read, W: Write, P: Reporter>(
    surroundings: Surroundings<'_, '_, '_, F, R, W, P>,
    run: Run<'_>,
) -> Result<(), Failure>
    ensures { HasWritten F.acts run.entry.work run.entry.resolution run.entry.target
        (world_found R.remaining W.contents surroundings.entry) (world_left R.remaining W.contents surroundings.exit) result }
{
    let task = match run.work {
        Work::Task(task) => task,
        Work::Certify(certificate) => return certify(surroundings, certificate, run),
    };
    let Surroundings {
        files,
        reader,
        out,
        alloc,
        reporter,
    } = surroundings;
    match run.target {
        Target::StandardOutput => {
            let outlet = Outlet {
                out,
                alloc,
                reporter,
            };
            let done = do_read(reader, outlet, task, run.resolution);
            Failure::unless_done(alloc, done, task.page())
        }
        Target::File(name) => match files.begin(name) {
            Ok(mut file) => {
                let outlet = Outlet {
                    out: &mut file,
                    alloc,
                    reporter,
                };
                let done = do_read(reader, outlet, task, run.resolution);
                let settled = settle(files, name, file, done);
                Failure::unless_done(alloc, settled, task.page())
            }
            Err(why) => Err(Failure::of_file(alloc, why)),
        },
    }
}

/// Does a task with the job that a reader gives, which is read here, once: at a resolution that is given, or at the first at which the
/// job is accepted. It is shrunk for each of these.
fn do_read<R: Read, W: Write, P: Reporter>(
    reader: &mut R,
    outlet: Outlet<'_, W, P>,
    task: Task,
    resolution: Resolution,
) -> Result<(), Fault>
    ensures { HasDoneRead task resolution (world (tt {0}) (R.remaining reader.old) (W.contents outlet.entry.out.now))
        (world (tt {0}) (R.remaining reader.new) (W.contents outlet.exit.0.now)) result }
{
    let job = read_job(outlet.alloc, task, reader)?;
    match (task, resolution) {
        (Task::Shrink { how, report }, Resolution::FirstAccepted) => {
            write_smallest(outlet, how, report, &job)
        }
        _ => {
            let dpi = resolve(outlet.alloc, resolution, task.profile(), &job)?;
            do_task(outlet, task, dpi, &job)
        }
    }
}

/// The job of a task, which a reader gives. Nothing is read where a kind is explained, which needs no job.
fn read_job<R: Read>(alloc: Global, task: Task, reader: &mut R) -> Result<Vec<u8>, Fault>
    ensures { IsJobRead task (R.remaining reader.old) (R.remaining reader.new) result }
{
    match task {
        Task::ExplainKind { .. } => Ok(Vec::new(alloc)),
        Task::Minimize
        | Task::Preview { .. }
        | Task::Explain { .. }
        | Task::DescribePages { .. }
        | Task::Shrink { .. } => read_all(alloc, reader, INPUT_LIMIT),
    }
}

/// Does a task with a job at a resolution.
fn do_task<W: Write, P: Reporter>(
    outlet: Outlet<'_, W, P>,
    task: Task,
    dpi: Dpi,
    job: &[u8],
) -> Result<(), Fault>
    ensures { IsDone task dpi job.now (W.contents outlet.entry.out.now) (W.contents outlet.exit.0.now) result }
{
    match task {
        Task::Minimize => write_least(outlet, dpi, job),
        Task::Preview {
            choice,
            form,
            profile,
        } => write_images(outlet, choice, form, profile, dpi, job),
        Task::Explain { layout, profile } => explain(outlet, layout, profile, dpi, job),
        Task::ExplainKind { layout, kind } => explain_kind(outlet, layout, kind),
        Task::DescribePages { layout, profile } => describe(outlet, layout, profile, dpi, job),
        Task::Shrink { how, report } => write_smaller(outlet, how, report, dpi, job),
    }
}

/// Writes images of the pages of a job that are asked for: bitmaps once all of them are made, greymaps one by one.
fn write_images<W: Write, P: Reporter>(
    outlet: Outlet<'_, W, P>,
    choice: PageChoice,
    form: ImageForm,
    profile: Profile,
    dpi: Dpi,
    job: &[u8],
) -> Result<(), Fault>
    ensures { ArePagesWritten form choice profile dpi job.now (W.contents outlet.entry.out.now) (W.contents outlet.exit.0.now) result }
{
    match form {
        ImageForm::Bitmap => preview_pages(
            outlet.alloc,
            job,
            choice,
            ImageForm::Bitmap,
            profile,
            dpi,
            outlet.out,
        ),
        ImageForm::Greymap(scale) => {
            stream_pages(outlet.alloc, job, choice, scale, profile, dpi, outlet.out)
        }
    }
}

/// Writes the least raster job of the pages of a job.
fn write_least<W: Write, P: Reporter>(
    outlet: Outlet<'_, W, P>,
    dpi: Dpi,
    job: &[u8],
) -> Result<(), Fault>
    ensures { WritesOrRefuses (IsWrittenJob dpi job.now) (IsRefusal dpi job.now) (W.contents outlet.entry.out.now)
        (W.contents outlet.exit.0.now) result }
{
    let least = least_job(outlet.alloc, job, dpi, outlet.reporter)?;
    write_all(outlet.out, &least)
}

/// Writes what the rules refuse in a job, and what can be done. A job without pages is reported.
fn explain<W: Write, P: Reporter>(
    outlet: Outlet<'_, W, P>,
    layout: Layout,
    profile: Profile,
    dpi: Dpi,
    job: &[u8],
) -> Result<(), Fault>
    ensures { WritesOrRefuses (ExplainsIn layout profile dpi job.now) NeverRefuses (W.contents outlet.entry.out.now)
        (W.contents outlet.exit.0.now) result }
{
    let text = explained(outlet.alloc, layout, job, profile, dpi)?;
    report_no_page(outlet.alloc, job, profile, dpi, outlet.reporter)?;
    write_all(outlet.out, &text)
}

/// What the rules refuse in a job, and what can be done, in a layout.
fn explained(
    alloc: Global,
    layout: Layout,
    job: &[u8],
    profile: Profile,
    dpi: Dpi,
) -> Result<Vec<u8>, AllocError>
    ensures { IfOk result (λ text. ExplainsIn layout profile dpi job.now text.items) }
{
    match layout {
        Layout::Text => explanation(alloc, job, profile, dpi),
        Layout::Json => explanation_object(alloc, job, profile, dpi),
    }
}

/// Writes what a kind of refusal means, and what can be done.
fn explain_kind<W: Write, P: Reporter>(
    outlet: Outlet<'_, W, P>,
    layout: Layout,
    kind: Kind,
) -> Result<(), Fault>
    ensures { WritesOrRefuses (ExplainsKindIn layout kind) NeverRefuses (W.contents outlet.entry.out.now)
        (W.contents outlet.exit.0.now) result }
{
    let text = explained_kind(outlet.alloc, layout, kind)?;
    write_all(outlet.out, &text)
}

/// What a kind of refusal means, and what can be done, in a layout.
fn explained_kind(alloc: Global, layout: Layout, kind: Kind) -> Result<Vec<u8>, AllocError>
    ensures { IfOk result (λ text. ExplainsKindIn layout kind text.items) }
{
    match layout {
        Layout::Text => kind_explanation(alloc, kind),
        Layout::Json => kind_object(alloc, kind),
    }
}

/// Writes what the pages of a job are. A job without pages is reported.
fn describe<W: Write, P: Reporter>(
    outlet: Outlet<'_, W, P>,
    layout: Layout,
    profile: Profile,
    dpi: Dpi,
    job: &[u8],
) -> Result<(), Fault>
    ensures { WritesOrRefuses (TellsOfPages profile dpi job.now) (IsRefusalBy profile dpi job.now) (W.contents outlet.entry.out.now)
        (W.contents outlet.exit.0.now) result }
{
    let text = describe_pages(outlet.alloc, job, profile, dpi, layout)?;
    report_no_page(outlet.alloc, job, profile, dpi, outlet.reporter)?;
    write_all(outlet.out, &text)
}

/// Writes the smallest job that is found with the pages of a job, which asks for the same. A job without pages is reported, and what
/// shrinking it did if that is asked for.
fn write_smaller<W: Write, P: Reporter>(
    outlet: Outlet<'_, W, P>,
    how: Shrinking,
    report: Option<Layout>,
    dpi: Dpi,
    job: &[u8],
) -> Result<(), Fault>
    ensures { WritesOrRefuses (IsWrittenUnder how.readers how.profiles dpi job.now) (IsRefusalBy (widest_of how.profiles) dpi job.now)
        (W.contents outlet.entry.out.now) (W.contents outlet.exit.0.now) result }
{
    let shrunk = shrink_reported(outlet.alloc, job, how, dpi, outlet.reporter)?;
    report_shrunk(outlet.alloc, job.len(), &shrunk, report, outlet.reporter)?;
    write_all(outlet.out, &shrunk.job)
}

/// The same at each resolution at which the job is accepted.
fn write_smallest<W: Write, P: Reporter>(
    outlet: Outlet<'_, W, P>,
    how: Shrinking,
    report: Option<Layout>,
    job: &[u8],
) -> Result<(), Fault>
    ensures { WritesOrRefuses (IsWrittenEverywhereUnder how.readers how.profiles job.now)
        (IsRefusedEverywhereUnder how.profiles job.now) (W.contents outlet.entry.out.now) (W.contents outlet.exit.0.now) result }
{
    let shrunk = shrink_everywhere_reported(outlet.alloc, job, how, outlet.reporter)?;
    report_shrunk(outlet.alloc, job.len(), &shrunk, report, outlet.reporter)?;
    write_all(outlet.out, &shrunk.job)
}
