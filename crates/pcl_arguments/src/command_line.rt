//! The subcommands of `pclmin` and their arguments, and what help says of them.

use clap::{Arg, ArgAction, Command, value_parser};
use std::alloc::{AllocError, Global};

/// A subcommand: its name, what help says of it, and the arguments that it takes.
struct Subcommand {
    name: &'static str,
    about: &'static str,
    takes: &'static [Argument],
}

/// An argument that subcommands take.
#[derive(Clone, Copy)]
enum Argument {
    /// The file of the job that is read, which may be missing.
    Job,
    /// The files of the jobs of a batch.
    Jobs,
    /// A file of this name in the help, and what that says of it; it has to be there.
    File(&'static str, &'static str),
    /// An option of this name without a value, which is there or isn't, and its help.
    Flag(&'static str, &'static str),
    /// The same, beside which none of these others is taken.
    FlagWithout(&'static str, &'static str, &'static [&'static str]),
    /// An option of this name with a value after it, that value's name in the help, and the help.
    Option(&'static str, &'static str, &'static str),
    /// Where the job is written.
    Output,
    /// The folder of a batch.
    Folder,
    /// That a batch has none, and writes each job in its place.
    InPlace,
    /// That files are written into.
    KeepInode,
    /// The format of a certificate.
    Format,
    /// Which pages are shown.
    Pages,
    /// How many dots make a pixel.
    Scale,
    /// JSON where lines of columns could be asked for.
    Json,
    /// What `shrink` tells of its bytes.
    Report,
    /// That this is reported as JSON.
    ReportJson,
    Quiet,
    /// The resolution, and its help.
    Dpi(&'static str),
}

/// The program's version.
pub const VERSION: &str = "0.1.0";

/// What the program's help says first.
const ABOUT: &str = "A print filter for HP PCL 5: reads a job, and writes or shows what it prints.";

/// What it says last.
const STATUSES: &str =
    "Statuses: 0 done; 1 refused, no such page, not proved or not the same; 2 usage; 3 files or memory.";

/// The option by which files that are there are written into.
pub(crate) const KEEP_INODE: &str = "keep-inode";

/// The option by which a batch writes least raster jobs.
const MIN: &str = "min";

/// The option by which jobs are shrunk too that printers may read otherwise, and its help.
const PROFILE_ONLY: &str = "profile-only";

const READ_OTHERWISE: &str =
    "Shrink jobs too that some printers read otherwise, which else go as they came";

/// The option by which a job is read by the drivers' profile, and its help where an image is written, and where jobs are shrunk.
const DRIVERS: &str = "drivers";

const READ_AS_SENT: &str = "Read what drivers send besides too, as shrink does";

const READ_AS_DRIVERS: &str =
    "Read the job as drivers' jobs are: letters at 600 dots per inch go as fonts";

const READ_ALL_AS_DRIVERS: &str =
    "Read the jobs as drivers' jobs are: letters at 600 dots per inch go as fonts";

/// The option by which a job is read as `min` reads it, and its help.
const STATED: &str = "stated";

const READ_AS_STATED: &str = "Read the job as min does, without what drivers send besides";

const READ_BOTH_AS_STATED: &str = "Read both jobs as min does, without what drivers send besides";

const READ_ALL_AS_STATED: &str =
    "Read the jobs as min does, as with --min, without what drivers send besides";

/// What help says of the resolution where a command looks at one, and where it looks at each that counts.
const ONE_RESOLUTION: &str = "Dots per inch: 300, 600, or auto, the first that is accepted";

const EACH_RESOLUTION: &str = "Dots per inch: 300, 600, or auto, each that is accepted";

/// The subcommands, in the order of the help.
const SUBCOMMANDS: [Subcommand; 9] = [
    Subcommand {
        name: "pbm",
        about: "Writes pages of a job as PBM images (P4), one after the other",
        takes: &[
            Argument::Job,
            Argument::Output,
            Argument::KeepInode,
            Argument::Pages,
            Argument::Flag(DRIVERS, READ_AS_SENT),
            Argument::Quiet,
            Argument::Dpi(ONE_RESOLUTION),
        ],
    },
    Subcommand {
        name: "pgm",
        about: "Writes pages of a job as smaller PGM images (P5), one after the other",
        takes: &[
            Argument::Job,
            Argument::Output,
            Argument::KeepInode,
            Argument::Scale,
            Argument::Pages,
            Argument::Flag(DRIVERS, READ_AS_SENT),
            Argument::Quiet,
            Argument::Dpi(ONE_RESOLUTION),
        ],
    },
    Subcommand {
        name: "shrink",
        about: "Writes the smallest job that is found with the same dots, paper, sides and @PJL lines",
        takes: &[
            Argument::Job,
            Argument::Output,
            Argument::KeepInode,
            Argument::Report,
            Argument::ReportJson,
            Argument::Flag(PROFILE_ONLY, READ_OTHERWISE),
            Argument::Flag(STATED, READ_AS_STATED),
            Argument::FlagWithout(DRIVERS, READ_AS_DRIVERS, &[STATED]),
            Argument::Quiet,
            Argument::Dpi(EACH_RESOLUTION),
        ],
    },
    Subcommand {
        name: "min",
        about: "Writes a job again as the least raster job of the same pages",
        takes: &[
            Argument::Job,
            Argument::Output,
            Argument::KeepInode,
            Argument::Option(
                "cert",
                "FILE",
                "Also write a certificate to this file; a refused job leaves it empty",
            ),
            Argument::Format,
            Argument::Quiet,
            Argument::Dpi(ONE_RESOLUTION),
        ],
    },
    Subcommand {
        name: "pages",
        about: "Lists the pages of a job: size, copies, sides, source, black dots, and bytes",
        takes: &[
            Argument::Job,
            Argument::Output,
            Argument::KeepInode,
            Argument::Json,
            Argument::Flag("tsv", "Write lines of columns, parted by tabs: the default"),
            Argument::Flag(STATED, READ_AS_STATED),
            Argument::Quiet,
            Argument::Dpi(ONE_RESOLUTION),
        ],
    },
    Subcommand {
        name: "explain",
        about: "Names all that is refused in a job, and what to set instead; or what a KIND means",
        takes: &[
            Argument::Job,
            Argument::Output,
            Argument::KeepInode,
            Argument::Flag("json", "Write one object of JSON"),
            Argument::Flag(STATED, READ_AS_STATED),
            Argument::Quiet,
            Argument::Dpi(ONE_RESOLUTION),
        ],
    },
    Subcommand {
        name: "batch",
        about: "Shrinks many jobs into a folder, and reports on each; what is done isn't done again",
        takes: &[
            Argument::Folder,
            Argument::Flag(
                "keep-folders",
                "Keep the jobs' folders below DIR, so that two jobs may have one name",
            ),
            Argument::InPlace,
            Argument::KeepInode,
            Argument::Flag(
                MIN,
                "Write least raster jobs as min does, each with a certificate beside it",
            ),
            Argument::FlagWithout(PROFILE_ONLY, READ_OTHERWISE, &[MIN]),
            Argument::FlagWithout(STATED, READ_ALL_AS_STATED, &[MIN]),
            Argument::FlagWithout(DRIVERS, READ_ALL_AS_DRIVERS, &[STATED, MIN]),
            Argument::Flag("json", "Report in JSON, an object on each line"),
            Argument::Quiet,
            Argument::Dpi(EACH_RESOLUTION),
            Argument::Jobs,
        ],
    },
    Subcommand {
        name: "check",
        about: "Checks by a certificate that a written job has a job's pages, and none is shorter",
        takes: &[
            Argument::File(
                "IN",
                "The job as it was, or with --page images of its pages",
            ),
            Argument::File("OUT", "The job that it was written as"),
            Argument::File("CERT", "The certificate of the written job"),
            Argument::Flag(
                "page",
                "IN has PBM images (P4) of the pages, one after the other, as pbm writes them",
            ),
            Argument::Flag(
                "json",
                "Write an object of JSON: whether it is proved, and the line",
            ),
            Argument::Quiet,
            Argument::Dpi(ONE_RESOLUTION),
        ],
    },
    Subcommand {
        name: "same",
        about: "Tells whether two jobs print the same pages, and where not",
        takes: &[
            Argument::File("A", "The one job; - for standard input"),
            Argument::File("B", "The other job; - for standard input"),
            Argument::Flag(
                "asked",
                "Compare what they ask for too: copies, paper, sides, resets, @PJL lines",
            ),
            Argument::Option(
                "image",
                "FILE",
                "Write a PBM image of the page's dots that differ, if a dot differs first",
            ),
            Argument::Flag(
                "json",
                "Write an object of JSON: whether they are the same, and the line",
            ),
            Argument::Flag(STATED, READ_BOTH_AS_STATED),
            Argument::Quiet,
            Argument::Dpi(EACH_RESOLUTION),
        ],
    },
];

/// The program's command line.
pub fn pclmin<'a>(alloc: Global) -> Result<Command<'a>, AllocError> {
    let mut commands = Vec::new(alloc);
    for subcommand in &SUBCOMMANDS {
        commands.push(command(alloc, subcommand)?)?;
    }
    program(alloc)
        .subcommand_required(true)
        .arg_required_else_help(true)
        .subcommands(commands)
}

/// The subcommand of this name alone, as a fault in its arguments shows its usage; the whole command line where there is none.
pub fn subcommand_named<'a>(alloc: Global, name: &str) -> Result<Command<'a>, AllocError> {
    match SUBCOMMANDS
        .iter()
        .find(|subcommand| subcommand.name == name)
    {
        Some(subcommand) => {
            let called = format!(in alloc; "pclmin {name}")?;
            command(alloc, subcommand)?.bin_name(called.as_str())
        }
        None => pclmin(alloc),
    }
}

/// The program, without its subcommands.
fn program<'a>(alloc: Global) -> Command<'a> {
    Command::new(alloc, "pclmin")
        .version(VERSION)
        .about(ABOUT)
        .after_help(STATUSES)
}

/// A subcommand with the arguments that it takes.
fn command<'a>(alloc: Global, subcommand: &Subcommand) -> Result<Command<'a>, AllocError> {
    let args = args(alloc, subcommand.takes)?;
    Command::new(alloc, subcommand.name)
        .about(subcommand.about)
        .args(args)
}

/// The arguments that a subcommand takes, as they are read and shown.
fn args<'a>(alloc: Global, takes: &[Argument]) -> Result<Vec<Arg<'a>>, AllocError> {
    let mut args = Vec::new(alloc);
    for argument in takes {
        args.push(arg(alloc, *argument)?)?;
    }
    Ok(args)
}

/// An argument, as it is read and shown.
fn arg<'a>(alloc: Global, argument: Argument) -> Result<Arg<'a>, AllocError> {
    match argument {
        Argument::Job => Ok(job(alloc)),
        Argument::Jobs => Ok(jobs(alloc)),
        Argument::File(name, help) => Ok(file(alloc, name, help)),
        Argument::Flag(name, help) => Ok(flag(alloc, name, help)),
        Argument::FlagWithout(name, help, others) => flag_without(alloc, name, help, others),
        Argument::Option(name, value, help) => Ok(option(alloc, name, value, help)),
        Argument::Output => Ok(output(alloc)),
        Argument::Folder => folder(alloc),
        Argument::InPlace => in_place(alloc),
        Argument::KeepInode => Ok(keep_inode(alloc)),
        Argument::Format => format(alloc),
        Argument::Pages => Ok(pages(alloc)),
        Argument::Scale => Ok(scale(alloc)),
        Argument::Json => json(alloc),
        Argument::Report => report(alloc),
        Argument::ReportJson => report_json(alloc),
        Argument::Quiet => Ok(quiet(alloc)),
        Argument::Dpi(help) => Ok(dpi(alloc, help)),
    }
}

/// An option such as `--quiet`, which is there or isn't.
fn flag<'a>(alloc: Global, name: &'a str, help: &'a str) -> Arg<'a> {
    Arg::new(alloc, name)
        .long(name)
        .action(ArgAction::SetTrue)
        .help(help)
}

/// The same, beside which none of these others is taken.
fn flag_without<'a>(
    alloc: Global,
    name: &'a str,
    help: &'a str,
    others: &[&'a str],
) -> Result<Arg<'a>, AllocError> {
    flag(alloc, name, help).conflicts_with_all(others)
}

/// An option such as `--dpi`, with a value after it.
fn option<'a>(alloc: Global, name: &'a str, value: &'a str, help: &'a str) -> Arg<'a> {
    Arg::new(alloc, name)
        .long(name)
        .value_name(value)
        .help(help)
}

/// A file that is asked for.
fn file<'a>(alloc: Global, name: &'a str, help: &'a str) -> Arg<'a> {
    Arg::new(alloc, name)
        .value_name(name)
        .required(true)
        .help(help)
}

/// The file of the job that is read.
fn job<'a>(alloc: Global) -> Arg<'a> {
    Arg::new(alloc, "JOB").value_name("JOB").help(
        "The file of the job; standard input where none or - is given",
    )
}

/// The files of the jobs of a batch.
fn jobs<'a>(alloc: Global) -> Arg<'a> {
    Arg::new(alloc, "JOB").value_name("JOB").num_args(0..).help(
        "The files of the jobs; without any, standard input names one on each line",
    )
}

/// The file that is written.
fn output<'a>(alloc: Global) -> Arg<'a> {
    option(
        alloc,
        "output",
        "FILE",
        "Write to this file once all is done; else, or by -, to standard output",
    )
    .short('o')
}

/// The folder of a batch.
fn folder<'a>(alloc: Global) -> Result<Arg<'a>, AllocError> {
    option(
        alloc,
        "output",
        "DIR",
        "The folder of what is written, which is made where it isn't there",
    )
    .short('o')
    .required_unless_present("in-place")
}

/// That a batch writes each job in its place.
fn in_place<'a>(alloc: Global) -> Result<Arg<'a>, AllocError> {
    flag(
        alloc,
        "in-place",
        "Write each job over its own file, beside it first",
    )
    .conflicts_with("output")?
    .conflicts_with("keep-folders")?
    .conflicts_with(MIN)
}

/// That files are written into which are there.
fn keep_inode<'a>(alloc: Global) -> Arg<'a> {
    flag(
        alloc,
        KEEP_INODE,
        "Write into a file that is there: it keeps its ACL, but a kill may cut it",
    )
}

/// The format of a certificate.
fn format<'a>(alloc: Global) -> Result<Arg<'a>, AllocError> {
    option(
        alloc,
        "format",
        "N",
        "The format of the certificate, 1 or 2; 1 where none is given",
    )
    .value_parser(value_parser!(u16).range(1..=2))
    .requires_arg("cert")
}

/// The pages that are shown.
fn pages<'a>(alloc: Global) -> Arg<'a> {
    option(
        alloc,
        "page",
        "N",
        "Pages from 1 to 256, as 2, 2-5 or 1,3,7-9; all where none are given",
    )
}

/// How many dots make a pixel.
fn scale<'a>(alloc: Global) -> Arg<'a> {
    option(
        alloc,
        "scale",
        "N",
        "Make each pixel the mean of N by N dots, with N from 1 to 32",
    )
    .value_parser(value_parser!(u16).range(1..=32))
    .required(true)
}

/// Whether one object is asked for.
fn json<'a>(alloc: Global) -> Result<Arg<'a>, AllocError> {
    flag(alloc, "json", "Write one object of JSON").conflicts_with("tsv")
}

/// What `shrink` tells of its bytes.
fn report<'a>(alloc: Global) -> Result<Arg<'a>, AllocError> {
    flag(
        alloc,
        "report",
        "Tell on standard error bytes, pages, and how they are written",
    )
    .conflicts_with("quiet")
}

/// That this is reported as JSON.
fn report_json<'a>(alloc: Global) -> Result<Arg<'a>, AllocError> {
    flag(alloc, "json", "Tell it as an object of JSON").requires_arg("report")
}

/// Silence, where a run would tell how far it has come, and what there is to say besides.
fn quiet<'a>(alloc: Global) -> Arg<'a> {
    flag(
        alloc,
        "quiet",
        "Say nothing on standard error but why a run fails",
    )
    .short('q')
}

/// The resolution, which all commands take.
fn dpi<'a>(alloc: Global, help: &'a str) -> Arg<'a> {
    option(alloc, "dpi", "N", help).default_value("300")
}
