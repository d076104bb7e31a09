//! How the process speaks where words ask for something, besides what a run writes.

use crate::running::ask_for_batch;
use pcl_arguments::{parse_batch, parse_request};
use pcl_request::{Request, Resolution};
use pcl_system::{Replacing, Typed};
use std::alloc::Global;

/// How the process speaks.
#[derive(Clone, Copy)]
pub(crate) struct Manner {
    /// What is typed where standard input is a terminal.
    typed: Typed,
    /// Whether it says nothing but why a run fails.
    pub is_quiet: bool,
    /// Whether the resolution is left to the job.
    pub is_auto: bool,
    /// How files take their places.
    pub replacing: Replacing,
}

impl Manner {
    /// Where nothing is known of what is asked for.
    fn plain(typed: Typed) -> Manner {
        Manner {
            typed,
            is_quiet: false,
            is_auto: false,
            replacing: Replacing::ByAnother,
        }
    }

    /// Where the words of a command line ask for something.
    pub fn of(alloc: Global, words: &[String]) -> Manner {
        if ask_for_batch(words) {
            Manner::of_batch(alloc, words)
        } else {
            Manner::of_request(alloc, words)
        }
    }

    /// Where they ask for a batch.
    fn of_batch(alloc: Global, words: &[String]) -> Manner {
        match parse_batch(alloc, words) {
            Ok(asked) => Manner {
                typed: Typed::Names,
                is_quiet: asked.batch.quiet,
                is_auto: is_auto(asked.batch.resolution),
                replacing: replacing(asked.batch.keeps_inode),
            },
            Err(_) => Manner::plain(Typed::Names),
        }
    }

    /// Where they ask for anything else.
    fn of_request(alloc: Global, words: &[String]) -> Manner {
        let (is_quiet, resolution, keeps_inode) = match parse_request(alloc, words) {
            Ok(Request::Run(run)) => (run.quiet, run.resolution, run.keeps_inode),
            Ok(Request::Check(asked)) => (asked.quiet, asked.resolution, false),
            Ok(Request::Compare(asked)) => (false, asked.resolution, false),
            Err(_) => return Manner::plain(Typed::Job),
        };
        Manner {
            typed: Typed::Job,
            is_quiet,
            is_auto: is_auto(resolution),
            replacing: replacing(keeps_inode),
        }
    }

    /// What a person has to type on a terminal, unless nothing is to be said.
    pub fn typed(self) -> Option<Typed> {
        if self.is_quiet {
            None
        } else {
            Some(self.typed)
        }
    }
}

/// Whether a resolution is left to the job.
fn is_auto(resolution: Resolution) -> bool {
    matches!(resolution, Resolution::FirstAccepted)
}

/// How files take their places, where a file that is there keeps its number or not.
fn replacing(keeps_inode: bool) -> Replacing {
    if keeps_inode {
        Replacing::InPlace
    } else {
        Replacing::ByAnother
    }
}
