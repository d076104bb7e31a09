//! Files that would take the place of a job's.

ghost use Rattle.pcl_command.specs.Clashes.{SayIfClash, SayIfNamed};

use pcl_files::JobFiles;
use pcl_request::Request;

/// Whether the file of a certificate or of an image is that of a job that is read, written or compared.
pub fn clashes<F: JobFiles>(files: &F, request: Request<'_>) -> bool
    ensures { SayIfClash F.acts files.now request.entry result }
{
    match request.aside() {
        Some(name) => {
            is_named(files, name, request.first_job())
                || is_named(files, name, request.second_job())
        }
        None => false,
    }
}

/// Whether a name is that of a job's file.
fn is_named<F: JobFiles>(files: &F, name: &str, job: Option<&str>) -> bool
    ensures { SayIfNamed F.acts files.now name.now job.entry result }
{
    match job {
        Some(job) => files.are_one(name, job),
        None => false,
    }
}
