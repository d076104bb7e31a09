//! What the words of a command line ask for.

use crate::command_line::{KEEP_INODE, VERSION, pclmin, subcommand_named};
use clap::error::ErrorKind;
use clap::{ArgMatches, Error};
use pcl_base::{Dpi, PAGE_LIMIT, Profile};
use pcl_cert::Format;
use pcl_explain::kind_named;
use pcl_preview::{ImageForm, PageChoice, PageSet, Scale};
use pcl_printers::Readers;
use pcl_request::{
    Batch, Beside, Certificate, CheckedFiles, ComparedFiles, Destination, Layout, Profiles,
    Request, Resolution, Rewriting, Run, Shrinking, Source, Target, Task, Work, resolution_named,
};
use std::alloc::{AllocError, Global};
use std::convert::AsStr;

/// The system's name of standard input.
const STANDARD_INPUT: &str = "/dev/stdin";

/// A batch, and the files of its jobs: where there are none, standard input names them.
#[derive(Drop)]
pub struct AskedBatch<'w> {
    pub batch: Batch<'w>,
    pub paths: Vec<&'w str>,
}

/// What the words of a command line ask for, or the help, the version or the fault to print.
pub fn parse_request<'w, S: AsStr>(alloc: Global, words: &'w [S]) -> Result<Request<'w>, Error> {
    let matches = matches_of(alloc, words)?;
    request_or_fault(alloc, &matches)
}

/// The batch that the words of a command line ask for, or the help or the fault to print.
pub fn parse_batch<'w, S: AsStr>(alloc: Global, words: &'w [S]) -> Result<AskedBatch<'w>, Error> {
    let matches = matches_of(alloc, words)?;
    batch_or_fault(alloc, &matches)
}

/// The words of a command line, by the arguments that they give.
fn matches_of<'w, S: AsStr>(alloc: Global, words: &'w [S]) -> Result<ArgMatches<'w>, Error> {
    pclmin(alloc)?.try_get_matches_from(words)
}

/// What words ask for, or the fault to print.
fn request_or_fault<'w>(alloc: Global, matches: &ArgMatches<'w>) -> Result<Request<'w>, Error> {
    match request_of(matches) {
        Ok(request) => Ok(request),
        Err(wrong) => Err(wrong.error(alloc, matches)?),
    }
}

/// The batch that words ask for, or the fault to print.
fn batch_or_fault<'w>(alloc: Global, matches: &ArgMatches<'w>) -> Result<AskedBatch<'w>, Error> {
    match batch_of(matches) {
        Ok((batch, command)) => Ok(AskedBatch {
            batch,
            paths: batch_paths(alloc, command)?,
        }),
        Err(wrong) => Err(wrong.error(alloc, matches)?),
    }
}

/// The files of the jobs that the words after `batch` name.
fn batch_paths<'w>(alloc: Global, batch: &ArgMatches<'w>) -> Result<Vec<&'w str>, AllocError> {
    match batch.get_strs("JOB") {
        Some(paths) => Vec::from_slice(alloc, paths),
        None => Ok(Vec::new(alloc)),
    }
}

/// What the words of `batch` ask for, with those that stand after it.
fn batch_of<'w, 'm>(
    matches: &'m ArgMatches<'w>,
) -> Result<(Batch<'w>, &'m ArgMatches<'w>), WrongWord<'w>> {
    let (_, command) = matches.subcommand().ok_or(WrongWord::Missing)?;
    Ok((batch_with(command)?, command))
}

/// What the words after `batch` ask for.
fn batch_with<'w>(batch: &ArgMatches<'w>) -> Result<Batch<'w>, WrongWord<'w>> {
    let resolution = resolution_of(batch)?;
    Ok(Batch {
        version: VERSION,
        place: place_of(batch)?,
        rewriting: rewriting_of(batch, resolution),
        resolution,
        layout: layout_of(batch),
        quiet: batch.get_flag("quiet"),
        keeps_inode: batch.get_flag(KEEP_INODE),
    })
}

/// How a batch writes each job again.
fn rewriting_of(batch: &ArgMatches<'_>, resolution: Resolution) -> Rewriting {
    match resolution {
        _ if batch.get_flag("min") => Rewriting::Certify,
        Resolution::FirstAccepted => Rewriting::ShrinkEverywhere(shrinking_of(batch)),
        Resolution::Given(_) => Rewriting::Shrink(shrinking_of(batch)),
    }
}

/// How what is said is laid out.
fn layout_of(command: &ArgMatches<'_>) -> Layout {
    if command.get_flag("json") {
        Layout::Json
    } else {
        Layout::Text
    }
}

/// Where a batch writes.
fn place_of<'w>(batch: &ArgMatches<'w>) -> Result<Destination<'w>, WrongWord<'w>> {
    match batch.get_str("output") {
        None => Ok(Destination::Itself),
        Some("") => Err(WrongWord::NoFolder),
        Some(folder) if batch.get_flag("keep-folders") => Ok(Destination::Below(folder)),
        Some(folder) => Ok(Destination::Folder(folder)),
    }
}

/// A word that has no value of its kind.
#[derive(Clone, Copy)]
enum WrongWord<'w> {
    Resolution(&'w str),
    Pages(&'w str),
    /// A folder without a name.
    NoFolder,
    /// Standard input for both jobs that are compared.
    BothFromInput,
    /// One that has to be there isn't.
    Missing,
}

impl WrongWord<'_> {
    /// The fault to print, with the usage of the command that has the word.
    fn error(self, alloc: Global, matches: &ArgMatches<'_>) -> Result<Error, AllocError> {
        let text = self.text(alloc)?;
        let mut command = match matches.subcommand_name() {
            Some(name) => subcommand_named(alloc, name)?,
            None => pclmin(alloc)?,
        };
        command.error(ErrorKind::InvalidValue, text.as_str())
    }

    /// What is said of it.
    fn text(self, alloc: Global) -> Result<String, AllocError> {
        match self {
            WrongWord::Resolution(word) => format!(in alloc;
                "the resolution of --dpi is 300 or 600, or auto, and not '{word}'"
            ),
            WrongWord::Pages(word) => format!(in alloc;
                "--page takes pages from 1 to 256 in their order, as 2, 2-5 or 1,3,7-9, and not '{word}'"
            ),
            WrongWord::NoFolder => String::from_str(alloc, "the folder of -o has a name"),
            WrongWord::BothFromInput => {
                String::from_str(alloc, "standard input has one job: - stands for A or for B")
            }
            WrongWord::Missing => String::from_str(alloc, "a word is missing"),
        }
    }
}

/// What the words of a command ask for.
fn request_of<'w>(matches: &ArgMatches<'w>) -> Result<Request<'w>, WrongWord<'w>> {
    let (name, command) = matches.subcommand().ok_or(WrongWord::Missing)?;
    match name {
        "check" => Ok(Request::Check(checked_files(command)?)),
        "same" => Ok(Request::Compare(compared_files(command)?)),
        _ => Ok(Request::Run(run_of(name, command)?)),
    }
}

/// What the words of `min`, `pbm`, `pgm`, `pages`, `explain` or `shrink` ask for.
fn run_of<'w>(name: &str, command: &ArgMatches<'w>) -> Result<Run<'w>, WrongWord<'w>> {
    let resolution = resolution_of(command)?;
    let work = match name {
        "min" => min_work(command),
        "explain" => Work::Task(explain_task(command)),
        "pages" => Work::Task(pages_task(command)),
        "shrink" => Work::Task(Task::Shrink {
            how: shrinking_of(command),
            report: command.get_flag("report").then_some(layout_of(command)),
        }),
        _ => Work::Task(Task::Preview {
            choice: page_choice(command)?,
            form: image_form(name, command)?,
            profile: if command.get_flag("drivers") {
                Profile::Drivers
            } else {
                Profile::Stated
            },
        }),
    };
    Ok(Run {
        work,
        source: source_of(work, command),
        target: target_of(command),
        resolution: seen_at(work, resolution),
        quiet: command.get_flag("quiet"),
        keeps_inode: command.get_flag(KEEP_INODE),
    })
}

/// By which profile jobs are read, the widest where several are tried.
fn profile_of(command: &ArgMatches<'_>) -> Profile {
    if command.get_flag("stated") {
        Profile::Stated
    } else {
        Profile::Drivers
    }
}

/// How jobs are shrunk.
fn shrinking_of(command: &ArgMatches<'_>) -> Shrinking {
    Shrinking {
        profiles: profiles_of_shrinking(command),
        readers: readers_of(command),
    }
}

/// By which profiles a job is read that is shrunk.
fn profiles_of_shrinking(command: &ArgMatches<'_>) -> Profiles {
    if command.get_flag("stated") {
        Profiles::Stated
    } else if command.get_flag("drivers") {
        Profiles::Drivers
    } else {
        Profiles::Either
    }
}

/// For which readers a job is shrunk.
fn readers_of(command: &ArgMatches<'_>) -> Readers {
    if command.get_flag("profile-only") {
        Readers::Profile
    } else {
        Readers::Printers
    }
}

/// The resolution at which a job is seen; one is as good as the other where none is read.
fn seen_at(work: Work<'_>, resolution: Resolution) -> Resolution {
    match work {
        Work::Task(Task::ExplainKind { .. }) => Resolution::Given(Dpi::Dpi300),
        _ => resolution,
    }
}

/// The resolution that is asked for.
fn resolution_of<'w>(command: &ArgMatches<'w>) -> Result<Resolution, WrongWord<'w>> {
    let word = command.get_str("dpi").ok_or(WrongWord::Missing)?;
    resolution_named(word).ok_or(WrongWord::Resolution(word))
}

/// Where the job comes from: the file that is named, or standard input where none or `-` is, or where none is read.
fn source_of<'w>(work: Work<'w>, command: &ArgMatches<'w>) -> Source<'w> {
    match (work, command.get_str("JOB")) {
        (Work::Task(Task::ExplainKind { .. }), _) | (_, None | Some("-")) => Source::StandardInput,
        (_, Some(file)) => Source::File(file),
    }
}

/// Where what is made goes: to the file that is named, or to standard output where none or `-` is.
fn target_of<'w>(command: &ArgMatches<'w>) -> Target<'w> {
    match command.get_str("output") {
        None | Some("-") => Target::StandardOutput,
        Some(file) => Target::File(file),
    }
}

/// What the words of `check` ask for.
fn checked_files<'w>(check: &ArgMatches<'w>) -> Result<CheckedFiles<'w>, WrongWord<'w>> {
    let beside = if check.get_flag("page") {
        Beside::Images
    } else {
        Beside::Input
    };
    Ok(CheckedFiles {
        beside,
        input: file_of(check, "IN")?,
        output: file_of(check, "OUT")?,
        certificate: file_of(check, "CERT")?,
        layout: layout_of(check),
        resolution: resolution_of(check)?,
        quiet: check.get_flag("quiet"),
    })
}

/// What the words of `same` ask for.
fn compared_files<'w>(same: &ArgMatches<'w>) -> Result<ComparedFiles<'w>, WrongWord<'w>> {
    let (first, second) = (file_of(same, "A")?, file_of(same, "B")?);
    if first == "-" && second == "-" {
        return Err(WrongWord::BothFromInput);
    }
    Ok(ComparedFiles {
        first: read_from(first),
        second: read_from(second),
        asks: same.get_flag("asked"),
        image: same.get_str("image"),
        profile: profile_of(same),
        layout: layout_of(same),
        resolution: resolution_of(same)?,
    })
}

/// The name of a file that is read, or the system's name of standard input where `-` stands for that.
fn read_from(word: &str) -> &str {
    match word {
        "-" => STANDARD_INPUT,
        file => file,
    }
}

/// A file that has to be named.
fn file_of<'w>(command: &ArgMatches<'w>, name: &str) -> Result<&'w str, WrongWord<'w>> {
    command.get_str(name).ok_or(WrongWord::Missing)
}

/// What the words after `min` ask for.
fn min_work<'w>(min: &ArgMatches<'w>) -> Work<'w> {
    let format = match min.get_one::<u16>("format") {
        Some(2) => Format::Two,
        _ => Format::One,
    };
    match min.get_str("cert") {
        Some(file) => Work::Certify(Certificate { file, format }),
        None => Work::Task(Task::Minimize),
    }
}

/// What the words after `pages` ask for.
fn pages_task(pages: &ArgMatches<'_>) -> Task {
    Task::DescribePages {
        layout: layout_of(pages),
        profile: profile_of(pages),
    }
}

/// What the words after `explain` ask for: a kind of refusal, where its name stands in place of a file.
fn explain_task(explain: &ArgMatches<'_>) -> Task {
    let layout = layout_of(explain);
    let profile = profile_of(explain);
    match explain.get_str("JOB").and_then(|word| kind_named(word)) {
        Some(kind) => Task::ExplainKind { layout, kind },
        None => Task::Explain { layout, profile },
    }
}

/// The form of images that `pbm` or `pgm` asks for.
fn image_form<'w>(name: &str, command: &ArgMatches<'w>) -> Result<ImageForm, WrongWord<'w>> {
    match name {
        "pgm" => Ok(ImageForm::Greymap(scale_of(command)?)),
        _ => Ok(ImageForm::Bitmap),
    }
}

/// The scale that the words after `pgm` ask for.
fn scale_of<'w>(pgm: &ArgMatches<'w>) -> Result<Scale, WrongWord<'w>> {
    let side = pgm.get_one::<u16>("scale").ok_or(WrongWord::Missing)?;
    Scale::new(u32::from(side)).ok_or(WrongWord::Missing)
}

/// The pages that the words after `pbm` or `pgm` ask for: all where none is named.
fn page_choice<'w>(pbm: &ArgMatches<'w>) -> Result<PageChoice, WrongWord<'w>> {
    match pbm.get_str("page") {
        None => Ok(PageChoice::All),
        Some(word) => {
            let pages = page_list(word).ok_or(WrongWord::Pages(word))?;
            Ok(PageChoice::Listed(pages))
        }
    }
}

/// The pages of numbers and ranges between commas, each of which begins after the end of the one before it.
fn page_list(word: &str) -> Option<PageSet> {
    let mut pages = PageSet::none();
    let mut before = 0;
    for part in word.split(',') {
        let (first, last) = page_range(part)?;
        if first <= before {
            return None;
        }
        pages = pages.with(first, last);
        before = last;
    }
    Some(pages)
}

/// The first page and the last of a number, or of two with a hyphen between them.
fn page_range(part: &str) -> Option<(usize, usize)> {
    let (first, last) = part.split_once('-').unwrap_or((part, part));
    let (first, last) = (page_number(first)?, page_number(last)?);
    (first <= last).then_some((first, last))
}

/// The number of a page, up to 256.
fn page_number(word: &str) -> Option<usize> {
    match word.parse::<u16>() {
        Ok(number) if u32::from(number) <= PAGE_LIMIT => Some(usize::from(number)),
        _ => None,
    }
}
