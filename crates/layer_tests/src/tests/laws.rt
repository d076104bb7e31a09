//! Each public call of `pcl_page` that the other examples don't make.

use super::assert_gives;
use pcl_base::{Dpi, JobFault, Kind, Name, Profile, Refusal, Value};
use pcl_escape::{Command, read_job};
use pcl_page::{
    Asked, AskedPage, Page, PageSink, PageStart, one_meaning, perform_asked, run, some_meaning,
};
use std::alloc::{AllocError, Global};
use std::process::Abort;
use std::test::Fail;

/// Counts the pages that come, and keeps none.
#[derive(Drop)]
struct Count {
    /// How many came so far.
    pages: usize,
}

impl PageSink for Count {
    ghost takes = { λ old page new. Unit {0} };

    fn page(&mut self, _page: &Page) -> Result<(), AllocError> {
        self.pages = self.pages.saturating_add(1);
        Ok(())
    }
}

// The laws do nothing.
#[test]
fn states_the_laws() {
    one_meaning();
    some_meaning();
}

/// A command that ends a page, and one of no known name, which no reading gives.
const COMMANDS: [Command<'static>; 2] = [
    Command {
        at: 3,
        name: Name::One(12),
        value: Value::ZERO,
        bytes: b"",
    },
    Command {
        at: 7,
        name: Name::One(b'Y'),
        value: Value::ZERO,
        bytes: b"",
    },
];

/// How the second one is refused.
const REFUSAL: Refusal = Refusal {
    kind: Kind::UnsupportedCommand,
    at: 7,
    name: Name::One(b'Y'),
};

/// Asserts what performing commands up to place `end` answers, and how many pages come.
fn assert_runs(
    rt: &impl Abort,
    alloc: Global,
    commands: &[Command],
    end: usize,
    wanted: &(Result<(), JobFault>, usize),
) {
    let mut count = Count { pages: 0 };
    let result = run(alloc, commands, end, Dpi::Dpi300, &mut count);
    assert_gives(rt, &end, &(result, count.pages), wanted);
}

// The commands of a job are performed as the job is; one of no known name is refused.
#[test]
fn runs_commands(rt: HostRuntime) -> Result<(), Fail> {
    let job = b"\x0c\x1b*t300R\x1b*b0W";
    let commands = read_job(rt.alloc(), Profile::Stated, job)
        .ok()
        .ok_or("the job is right")?;
    assert_runs(&rt, rt.alloc(), &commands, job.len(), &(Ok(()), 2));
    let refused = (Err(JobFault::Refused(REFUSAL)), 1);
    assert_runs(&rt, rt.alloc(), &COMMANDS, 9, &refused);
    Ok(())
}

/// A page with sides 1, one from paper source 2 besides, and then a universal exit with a line.
const ASKING: &[u8] = b"\x1b&l1S\x1b*b1W\x80\x1b&l2H\x1b*b1W\x80\x1b%-12345X@PJL EOJ\n";

fn assert_asks(rt: &impl Abort, alloc: Global) -> Result<(), Fail> {
    let mut count = Count { pages: 0 };
    let performed = perform_asked(alloc, ASKING, Profile::Stated, Dpi::Dpi300, &mut count);
    let asks = performed.ok().ok_or("the job is right")?;
    let said = Asked {
        sides: Some(1),
        ..Asked::NOTHING
    };
    let first = AskedPage {
        said,
        start: PageStart::FIRST,
    };
    let second = AskedPage {
        said: Asked {
            paper_source: Some(2),
            ..said
        },
        start: PageStart {
            source: Some(2),
            ..PageStart::NEXT
        },
    };
    assert_gives(
        rt,
        &"pages",
        &asks.pages.as_slice(),
        &[first, second].as_slice(),
    );
    assert_gives(rt, &"exits", &asks.exits.len(), &1);
    for exit in asks.exits.iter() {
        let wanted = (2, false, b"@PJL EOJ\n".as_slice());
        let found = (exit.pages, exit.is_reset, exit.lines);
        assert_gives(rt, &"exit", &found, &wanted);
    }
    Ok(())
}

// What each page was asked with stood before the command that ejects it, and an exit's own page is before it.
#[test]
fn gives_what_is_asked(rt: HostRuntime) -> Result<(), Fail> {
    assert_asks(&rt, rt.alloc())
}
