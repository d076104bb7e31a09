//! Places that were found.

ghost use Rattle.std.specs.Prelude.{◌≡◌};
ghost use Rattle.pcl_check.specs.inner.PlacePasses.{first_found_place};

/// The first of two places.
pub fn first_place(one: Option<usize>, other: Option<usize>) -> Option<usize>
    ensures { result ≡ first_found_place one other }
{
    match (one, other) {
        (Some(a), Some(b)) => Some(a.min(b)),
        (Some(a), None) => Some(a),
        (None, found) => found,
    }
}
