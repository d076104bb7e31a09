//! What a call answers.

ghost use Rattle.std.specs.Prelude.{◌≡◌};

use crate::failure::CallFailure;
use crate::lines::ended;
use pcl_base::{Dpi, Refusal};
use pcl_same::Which;
use pcl_tool::{Fault, Output};
use std::alloc::{AllocError, Global};

/// What a call answers, in memory that the caller lends. C has the same struct in lib/pclmin.c. Bytes that are not empty are the
/// caller's, who frees them, but for the line of the failures 3 and 4.
#[repr(C)]
#[derive(Drop)]
pub struct Answer {
    /// What was made: images, a job or a text.
    pub made: &'static [u8],
    /// The certificate of a job that was made with one.
    pub certificate: &'static [u8],
    /// What is said: of a failure, of two jobs, or of a job that was checked. Its line feed and a zero byte end it. It is
    /// empty where a call that is done has nothing to say, and where memory ran out.
    pub line: &'static [u8],
    /// The place of the refused command, in bytes from the job's start.
    pub place: usize,
    /// How many pages were counted.
    pub pages: usize,
    /// 0 where the call is done, else the number of the failure.
    pub outcome: u32,
    /// The resolution at which the jobs were seen, in dots per inch: 300 or 600 where the call is done.
    pub resolution: u32,
    /// The number of the kind of a refusal, from 1.
    pub kind: u32,
    /// The job that is refused: 1, or 2 for the second of two.
    pub refused_job: u32,
    /// Whether two jobs are the same, or a checked job is proved.
    pub holds: bool,
}

impl Answer {
    ghost use Rattle.std.specs.Prelude.{◌≡◌, ◌⊎◌};
    ghost use Rattle.pcl_base.specs.Dpi.{dots_per_inch};
    ghost use Rattle.pcl_base.specs.Kind.{kind_number};
    ghost use Rattle.pcl_library.specs.Answers.{IsOutOfMemory, SaysNothing, TellsFailure, TellsBy};
    ghost use Rattle.pcl_library.specs.Failures.{job_number};
    ghost use Rattle.pcl_library.specs.Lines.{IsLineOf};

    /// An answer that says nothing yet of a call that is done at this many dots per inch.
    fn blank(resolution: u32) -> Answer
        ensures outcome { result.outcome ≡ 0 }
        ensures resolution { result.resolution ≡ resolution }
        ensures nothing { SaysNothing result }
    {
        Answer {
            made: b"",
            certificate: b"",
            line: b"",
            place: 0,
            pages: 0,
            outcome: 0,
            resolution,
            kind: 0,
            refused_job: 0,
            holds: false,
        }
    }

    /// Bytes that were made at a resolution.
    pub fn of_bytes(bytes: Vec<u8>, dpi: Dpi) -> Answer
        ensures outcome { result.outcome ≡ 0 }
        ensures resolution { result.resolution ≡ dots_per_inch dpi }
        ensures made { result.made.now ≡ bytes.items }
    {
        Answer {
            made: kept(bytes),
            ..Answer::blank(dpi.dots())
        }
    }

    /// A job that was made with a certificate.
    pub fn of_output(output: Output, dpi: Dpi) -> Answer
        ensures outcome { result.outcome ≡ 0 }
        ensures resolution { result.resolution ≡ dots_per_inch dpi }
        ensures made { result.made.now ≡ output.job.items }
        ensures certificate { result.certificate.now ≡ output.certificate.items }
    {
        Answer {
            made: kept(output.job),
            certificate: kept(output.certificate),
            ..Answer::blank(dpi.dots())
        }
    }

    /// A number of pages.
    pub fn of_page_count(pages: usize, dpi: Dpi) -> Answer
        ensures outcome { result.outcome ≡ 0 }
        ensures resolution { result.resolution ≡ dots_per_inch dpi }
        ensures pages { result.pages ≡ pages }
    {
        Answer {
            pages,
            ..Answer::blank(dpi.dots())
        }
    }

    /// Whether something holds, and the line that says so; or that memory ran out for that.
    pub fn of_line(line: Result<Vec<u8>, AllocError>, holds: bool, dpi: Dpi) -> Answer
        ensures ended { (result.outcome ≡ 0) ⊎ IsOutOfMemory result }
        ensures resolution { result.outcome ≡ 0 → result.resolution ≡ dots_per_inch dpi }
        ensures holds { result.outcome ≡ 0 → result.holds ≡ holds }
        ensures line { result.outcome ≡ 0 → IsLineOf line result.line.now }
    {
        match ended(line) {
            Ok(line) => Answer {
                line,
                holds,
                ..Answer::blank(dpi.dots())
            },
            Err(_) => Answer::out_of_memory(),
        }
    }

    /// Memory ran out.
    fn out_of_memory() -> Answer
        ensures { IsOutOfMemory result }
    {
        Answer {
            outcome: 5,
            ..Answer::blank(0)
        }
    }

    /// A failure of a call; `page` is the last page that was asked for.
    pub fn of_failure(alloc: Global, failure: &CallFailure, page: usize) -> Answer
        ensures { TellsFailure failure.now page result }
    {
        match failure.line(alloc, page) {
            Ok(line) => Answer::of_said(failure, line),
            Err(_) => Answer::out_of_memory(),
        }
    }

    /// A failure of which this is said.
    fn of_said(failure: &CallFailure, line: &'static [u8]) -> Answer
        ensures { TellsBy line.now failure.now result }
    {
        let reported = Answer {
            line,
            outcome: failure.outcome(),
            ..Answer::blank(0)
        };
        match failure {
            CallFailure::Run(Fault::Refused(refusal)) => reported.refused(Which::First, refusal),
            CallFailure::OneRefused { which, refusal } => reported.refused(*which, refusal),
            _ => reported,
        }
    }

    /// The same answer with the refusal of a job.
    fn refused(self, which: Which, refusal: &Refusal) -> Answer
        ensures outcome { result.outcome ≡ self.outcome }
        ensures which { result.refused_job ≡ job_number which }
        ensures kind { result.kind ≡ kind_number refusal.now.kind }
        ensures place { result.place ≡ refusal.now.at }
        ensures line { result.line.now ≡ self.line.now }
    {
        Answer {
            place: refusal.at,
            kind: u32::from(refusal.kind.number()),
            refused_job: match which {
                Which::First => 1,
                Which::Second => 2,
            },
            ..self
        }
    }
}

/// Bytes that the caller frees, where there are any.
fn kept(bytes: Vec<u8>) -> &'static [u8]
    ensures { result.now ≡ bytes.items }
{
    if bytes.is_empty() { b"" } else { bytes.leak() }
}
