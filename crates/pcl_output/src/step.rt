//! Steps of a plan.

use pcl_base::Method;

/// A parameter of a page text's body (docs/OUTPUT.md, "Page texts").
#[derive(Clone, Copy, Debug, PartialEq, Eq)]
pub enum Step {
    /// This many white rows are skipped (`y`).
    Skip(u16),
    /// The rows from here on are sent by this method (`m`).
    Switch(Method),
    /// The next row is sent by this many bytes of data (`W`).
    Row(u16),
}
