//! Performing, described a second time: macros unfolded into one flat list of commands, where the end of a call looks back.
#![tactic(auto)]

ghost use Rattle.pcl_unfolding.specs.FlatList.{PerformingIsUnfolding};

/// The unfolding of macros into one flat list says the same as performing them does, by either profile. For all commands the
/// situation at the end, and so the pages, and the refusal are the same (docs/LANGUAGE.md, "Macros"). A law: the call does nothing.
pub fn performing_is_unfolding()
    ensures { PerformingIsUnfolding }
{}
