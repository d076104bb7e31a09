//! Nodes of a page.

ghost use Rattle.std.specs.Prelude.{◌≡◌, ◌+◌, ◌^◌, ◌<◌};

use crate::step::Step;
use pcl_base::Method;

/// How far a page text is: how many rows are printed, the method, and whether an `ESC*b` sequence is open (docs/OUTPUT.md,
/// "Page texts").
#[derive(Clone, Copy, Debug, PartialEq, Eq)]
pub struct Node {
    pub row: u32,
    pub method: Method,
    pub inside: bool,
}

impl Node {
    ghost use Rattle.pcl_output.specs.Nodes.{start, node_after};

    /// Where a body begins. No row is printed, the method is 0, and no sequence is open.
    pub fn start() -> Node
        ensures { result ≡ start }
    {
        Node {
            row: 0,
            method: Method::Plain,
            inside: false,
        }
    }

    /// The node after a step. The step ends its sequence or doesn't; a row always does.
    pub fn after(self, step: Step, ends: bool) -> Node
        requires { self.row + 65535 < 2 ^ 32 }
        ensures { result ≡ node_after self step ends }
    {
        match step {
            Step::Skip(count) => Node {
                row: self.row + u32::from(count),
                method: self.method,
                inside: !ends,
            },
            Step::Switch(next) => Node {
                row: self.row,
                method: next,
                inside: !ends,
            },
            Step::Row(_) => Node {
                row: self.row + 1,
                method: self.method,
                inside: false,
            },
        }
    }
}
