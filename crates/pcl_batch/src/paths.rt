//! Where the files of a job go.

use pcl_request::Destination;
use std::alloc::{AllocError, Global};

/// The paths of what is written of a job.
#[derive(Drop)]
pub(crate) struct Paths {
    /// The folder that they are in, where it may have to be made.
    pub folder: Option<String>,
    /// The job as it is written.
    pub job: String,
    /// Its certificate.
    pub certificate: String,
    /// The digests of the job as it came and of what is written.
    pub sums: String,
}

impl Paths {
    /// Those of a job whose file has this path. None where it leads out of the folder that it is to be kept below.
    pub(crate) fn new(
        alloc: Global,
        place: Destination<'_>,
        path: &str,
    ) -> Result<Option<Paths>, AllocError> {
        match place {
            Destination::Itself => Ok(Some(Paths::of(
                alloc,
                None,
                String::from_str(alloc, path)?,
            )?)),
            Destination::Folder(folder) => {
                let name = file_name(path);
                let job = format!(in alloc; "{folder}/{name}")?;
                Ok(Some(Paths::of(alloc, None, job)?))
            }
            Destination::Below(folder) => Paths::below(alloc, folder, path),
        }
    }

    /// Those of a job whose folders are kept below one.
    fn below(alloc: Global, folder: &str, path: &str) -> Result<Option<Paths>, AllocError> {
        if path.split('/').any(|part| part == "..") {
            return Ok(None);
        }
        let job = joined(alloc, folder, path)?;
        let above = match job.as_str().rsplit_once('/') {
            Some((above, _)) => Some(String::from_str(alloc, above)?),
            None => None,
        };
        Ok(Some(Paths::of(alloc, above, job)?))
    }

    /// Those of a job that is written here.
    fn of(alloc: Global, folder: Option<String>, job: String) -> Result<Paths, AllocError> {
        Ok(Paths {
            folder,
            certificate: format!(in alloc; "{job}.cert")?,
            sums: format!(in alloc; "{job}.sha256")?,
            job,
        })
    }
}

/// A path below a folder, without its parts that say nothing.
fn joined(alloc: Global, folder: &str, path: &str) -> Result<String, AllocError> {
    let mut place = String::from_str(alloc, folder)?;
    for part in path.split('/') {
        if !part.is_empty() && part != "." {
            place.push('/')?;
            place.push_str(part)?;
        }
    }
    Ok(place)
}

/// The name of a file, without its folder.
pub(crate) fn file_name(path: &str) -> &str {
    match path.rsplit_once('/') {
        Some((_, name)) => name,
        None => path,
    }
}
