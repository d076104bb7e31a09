//! Which of the bad numbers stands first in a certificate. A number is bad that is above what a step costs and the number
//! where that leads, or that isn't 0 at an end.

ghost use Rattle.std.specs.Prelude.{◌≡◌};
ghost use Rattle.pcl_check.specs.inner.EdgePasses.{found_place, first_found};

use pcl_output::Node;

/// Where the number of a node stands in a certificate (docs/CERTIFICATE.md).
fn place_of(node: Node) -> u64
    ensures { result ≡ found_place node }
{
    let inside = if node.inside { 1 } else { 0 };
    8 * u64::from(node.row) + 2 * u64::from(node.method.code()) + inside
}

/// The one of two nodes whose number stands first in a certificate.
pub fn first_of(one: Option<Node>, other: Option<Node>) -> Option<Node>
    ensures { result ≡ first_found one other }
{
    match (one, other) {
        (Some(a), Some(b)) => Some(if place_of(b) < place_of(a) { b } else { a }),
        (Some(a), None) => Some(a),
        (None, found) => found,
    }
}
