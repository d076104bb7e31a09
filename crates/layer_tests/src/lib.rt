//! The tests of the public calls of layers, and those that cross the crates and that no table of jobs can hold: laws, and devices that
//! fail. They are a crate of their own, so that no layer is proved a second time for them. There is nothing here but tests.
#![tactic(auto)]

#[cfg(test)]
mod tests;
