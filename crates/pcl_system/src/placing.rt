//! Files that take their places together.

use crate::new_file::NewFile;
use crate::parts::Claim;
use pcl_files::FileFault;

/// Files that are to take their places, all or none.
#[derive(Drop)]
pub(crate) struct Placing<'a> {
    rt: &'a HostRuntime,
    files: Vec<Claimed<'a>>,
    done: Result<(), FileFault>,
}

/// A file, and what is held of its place.
#[derive(Drop)]
struct Claimed<'a> {
    file: NewFile<'a>,
    claim: Claim,
}

/// Puts a file in its place, and asks nothing of memory. After an error it isn't there, and what was there stays.
pub(crate) fn place_one(rt: &HostRuntime, mut file: NewFile<'_>) -> Result<(), FileFault> {
    let mut claim = Claim::Nothing;
    let done = try_to_place(&mut file, &mut claim);
    if done.is_err() {
        file.take_back(&claim);
    }
    claim.let_go(rt);
    done
}

/// Finishes a file, takes its place for this run, and puts it there.
fn try_to_place(file: &mut NewFile<'_>, claim: &mut Claim) -> Result<(), FileFault> {
    file.finish()?;
    *claim = file.claim()?;
    file.put()
}

impl<'a> Placing<'a> {
    /// Of no file.
    pub(crate) fn new(rt: &'a HostRuntime) -> Placing<'a> {
        Placing {
            rt,
            files: Vec::new(rt.alloc()),
            done: Ok(()),
        }
    }

    /// With one file more, which takes its place after those before it.
    pub(crate) fn add(&mut self, file: NewFile<'a>) {
        let claim = Claim::Nothing;
        if let Err(full) = self.files.push(Claimed { file, claim }) {
            full.value.file.discard();
            self.done = Err(FileFault::Memory);
        }
    }

    /// Puts the files in their places. After an error none is there, and what was there stays.
    pub(crate) fn place(mut self) -> Result<(), FileFault> {
        let done = self.try_to_place();
        let Placing { rt, files, .. } = self;
        for it in files {
            let Claimed { file, claim } = it;
            if done.is_err() {
                file.take_back(&claim);
            }
            claim.let_go(rt);
        }
        done
    }

    /// Finishes all files, takes their places for this run, and puts them there.
    fn try_to_place(&mut self) -> Result<(), FileFault> {
        self.done?;
        for it in &mut self.files {
            it.file.finish()?;
        }
        for it in &mut self.files {
            it.claim = it.file.claim()?;
        }
        for it in &self.files {
            it.file.put()?;
        }
        Ok(())
    }
}
