//! What is said of the passes over a job that is shrunk.

ghost use Rattle.std.specs.Prelude.{◌≡◌};
ghost use Rattle.pcl_messages.specs.Passes.{pass_text};

use pcl_shrink::Pass;

/// What a pass does.
pub fn pass_name(pass: Pass) -> &'static str
    ensures { result.now ≡ pass_text pass }
{
    match pass {
        Pass::Paint => "pages painted at 600 dots per inch",
        Pass::Read => "pages read",
        Pass::Write => "pages written",
        Pass::Compare => "pages to compare",
    }
}
