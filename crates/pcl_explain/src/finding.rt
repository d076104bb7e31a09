//! What is found in a job.

ghost use Rattle.std.specs.Prelude.{◌≡◌};

use pcl_base::{Kind, Refusal, Value};
use std::alloc::{AllocError, Global};

/// Something in a job that the rules refuse.
#[derive(Clone, Copy, Debug)]
pub struct Finding {
    /// Why, where, and the command's name.
    pub refusal: Refusal,
    /// The value of the command; none where the job can't be read, and at the end of the input.
    pub value: Option<Value>,
    /// How many commands from this one on are refused as it is.
    pub times: usize,
}

impl Finding {
    /// What is found where no command is to be named.
    pub fn without_command(refusal: Refusal) -> Finding
        ensures { result.refusal ≡ refusal }
    {
        Finding {
            refusal,
            value: None,
            times: 1,
        }
    }

    /// The value, where that is what is refused.
    pub(crate) fn refused_value(self) -> Option<Value> {
        match self.refusal.kind {
            Kind::UnsupportedValue => self.value,
            _ => None,
        }
    }

    /// Counts the commands of a finding of the same thing too.
    fn count(&mut self, other: Finding)
        ensures { self.new.refusal ≡ self.old.refusal }
    {
        self.times = self.times.saturating_add(other.times);
    }

    /// Whether another finding is one line with it: of the same kind and name, and of the same value where that is refused.
    pub(crate) fn is_same_thing(self, other: Finding) -> bool {
        self.refusal.kind == other.refusal.kind
            && self.refusal.name == other.refusal.name
            && self.refused_value() == other.refused_value()
    }
}

/// All that is found in a job that is refused.
#[derive(Debug, Drop)]
pub struct Findings {
    /// The refusal of the job.
    pub first: Finding,
    /// What is found after it, in the order in which it comes to light.
    pub later: Vec<Finding>,
}

impl Findings {
    /// A first finding, and nothing after it.
    pub(crate) fn of(alloc: Global, first: Finding) -> Findings
        ensures { result.first ≡ first }
    {
        Findings {
            first,
            later: Vec::new(alloc),
        }
    }

    /// Adds a finding, or counts its commands with those of the same thing.
    pub(crate) fn add(&mut self, finding: Finding) -> Result<(), AllocError>
        ensures { self.new.first.refusal ≡ self.old.first.refusal }
    {
        if finding.is_same_thing(self.first) {
            self.first.count(finding);
            return Ok(());
        }
        match self
            .later
            .iter_mut()
            .find(|other| finding.is_same_thing(**other))
        {
            Some(other) => other.count(finding),
            None => self.later.push(finding)?,
        }
        Ok(())
    }

    /// Adds findings.
    pub(crate) fn add_all(&mut self, findings: &[Finding]) -> Result<(), AllocError>
        ensures { self.new.first.refusal ≡ self.old.first.refusal }
    {
        for finding in findings {
            self.add(*finding)?;
        }
        Ok(())
    }
}
