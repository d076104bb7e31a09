//! Laws of row tables.

ghost use Rattle.std.specs.Prelude.{◌≡◌, ℕ, ◌≤◌, List, length, slice_index};
ghost use Rattle.pcl_base.specs.declared.method.Method.{Method};
ghost use Rattle.pcl_rows.specs.Decoding.{base};
ghost use Rattle.pcl_rows.specs.Rows.{IsRowData};
ghost use Rattle.pcl_base.specs.declared.method.Method.TheVariants as methods;
ghost use Rattle.pcl_rows.specs.Elements.{Element};
ghost use Rattle.pcl_base.specs.Walks.{Walk, total, IsLeastCost};
ghost use Rattle.pcl_coders.specs.Starts.{IsLatestStart, StartsAt};
ghost use Rattle.pcl_coders.specs.RowWalks.{IsRowTable, IsLeastTable, StepsOver, NeedsNoMore, element_cost};
ghost use Rattle.pcl_coders.specs.Coding.{IsCodable, IsLeastLength};

/// No whole data for a row is shorter than the first number of a row table. The table may come from
/// anybody.
pub fn row_table_bounds_data()
    ensures { (method : Method) (seed row table bytes : List ℕ) → length seed ≡ length row → IsRowTable method seed row table
        → IsRowData method seed row bytes → slice_index table 0 ≤ length bytes }
{}

/// The first of the least numbers is the least length.
pub fn first_number_is_least()
    ensures { (method : Method) (seed row table : List ℕ) → IsCodable seed row → IsLeastTable method seed row table
        → IsLeastLength method seed row (slice_index table 0) }
{}

/// Each of the least numbers is the least cost of a walk from its place. No elements that give the rest of
/// the row have fewer bytes, and some have as many.
pub fn numbers_are_least()
    ensures { (method : Method) (seed row table : List ℕ) (place : ℕ) → IsLeastTable method seed row table → place ≤ length row
        → IsLeastCost (StepsOver method (base method seed) row) (NeedsNoMore (base method seed) row) element_cost place
        (slice_index table place) }
{}

/// An earlier start of a replacement is never shorter. For elements of method 3 that give the rest of a row there
/// are others of no more bytes whose first one starts at the first byte that differs from the row before.
pub fn latest_start_is_as_good()
    ensures { (old row : List ℕ) (steps : List Element) (place start : ℕ) → length old ≡ length row → IsLatestStart old row place start
        → Walk (StepsOver methods.Delta old row) (NeedsNoMore old row) place steps
        → StartsAt old row place start (total element_cost steps) }
{}
