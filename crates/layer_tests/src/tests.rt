mod bitmap;
mod certificates;
mod certifying;
mod coders;
mod devices;
mod edges;
mod env;
mod escape;
mod filtering;
mod fonts;
mod kernels;
mod laws;
mod macros;
mod places;
mod plain_choices;
mod plan_search;
mod plans;
mod reading;
mod rows;
mod short_rows;
mod texts;
mod watching;
mod words;
mod writing;

use std::fmt::Debug;
use std::process::Abort;

/// Asserts that a case gives what is wanted of it. The case tells which one fails.
fn assert_gives<C: Debug, T: Debug + PartialEq>(rt: &impl Abort, case: &C, given: &T, wanted: &T) {
    assert_eq!(rt; *given, *wanted, "{case:?}");
}
