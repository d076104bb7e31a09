//! The claim, and what is promised of written and of checked jobs. Each law is a call that does nothing.

ghost use Rattle.std.specs.Prelude.{◌≡◌, ℕ, List, Ok};
ghost use Rattle.pcl_base.specs.declared.dpi.Dpi.{Dpi};
ghost use Rattle.pcl_cert.specs.declared.format.Format.{Format};
ghost use Rattle.pcl_meaning.specs.JobTexts.{IsJobOf};
ghost use Rattle.pcl_tool.specs.declared.job_verdict.JobVerdict.{JobVerdict};
ghost use Rattle.pcl_tool.specs.declared.job_verdict.JobVerdict.TheVariants as verdicts;
ghost use Rattle.pcl_tool.specs.declared.minimizing.Output.{Output};
ghost use Rattle.pcl_tool.specs.Headline.{IsLeastSameJob, TheClaim};
ghost use Rattle.pcl_tool.specs.Minimizing.{IsCertifiedJobOf, IsMinimized};
ghost use Rattle.pcl_tool.specs.JobVerdicts.{IsJobVerdict};
ghost use Rattle.pcl_tool.specs.LeastJobs.{IsLeastJobOf, IsCertifiedBy};

use pcl_page::one_meaning;

/// The claim. What `minimize` promises of a job and its certificate is all that it takes: the job is accepted by the same rules as
/// the input and has the same pages, dot for dot; no job text of these pages is shorter, nor is any page text of one of them; the
/// checker answers Proved on the two, and can answer nothing else; and whatever else it answers Proved, for a certificate from
/// anybody, is a least job text of these pages too (docs/READING.md).
pub fn the_headline()
    ensures { (dpi : Dpi) (format : Format) (input : List ℕ) (output : Output) → IsMinimized dpi format input (Ok output)
        → TheClaim dpi input output.job.items output.certificate.items }
{
    one_meaning();
}

/// A job of page texts that are written for the input's pages is a least job with these pages. It has them in order and dot for
/// dot; no page text that prints one of the pages is shorter than the one that was written, and no job text of the same pages is
/// shorter than the job. Of what `filter` and `minimize` write their contracts say so themselves.
pub fn written_jobs_are_least()
    ensures { (dpi : Dpi) (input output : List ℕ) → IsJobOf dpi input output → IsLeastSameJob dpi input output }
{}

/// Where `check_job` says Proved the output is a least job text of the input's pages too. It and
/// the certificate may come from anybody.
pub fn proved_jobs_are_least()
    ensures { (dpi : Dpi) (input output certificate : List ℕ) → IsJobVerdict dpi input output certificate verdicts.Proved
        → IsLeastJobOf dpi input output }
{}

/// On a job text with a certificate that proves each of its page texts no verdict but Proved is right. So `check_job` says Proved
/// on what `minimize` and `filter_cert` write.
pub fn certified_jobs_are_proved()
    ensures certified { (dpi : Dpi) (input output certificate : List ℕ) (verdict : JobVerdict)
        → IsCertifiedBy dpi input output certificate → IsJobVerdict dpi input output certificate verdict → verdict ≡ verdicts.Proved }
    ensures written { (dpi : Dpi) (format : Format) (input output certificate : List ℕ) (verdict : JobVerdict)
        → IsCertifiedJobOf dpi format input output certificate → IsJobVerdict dpi input output certificate verdict
        → verdict ≡ verdicts.Proved }
{
    one_meaning();
}
