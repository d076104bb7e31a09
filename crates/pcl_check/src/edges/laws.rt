//! Laws of good numbers.

ghost use Rattle.std.specs.Prelude.{◌≡◌, ℕ, ◌+◌, ◌≤◌, ◌↔◌, List, length};
ghost use Rattle.pcl_base.specs.declared.method.Method.{Method};
ghost use Rattle.pcl_base.specs.Walks.{IsFeasible};
ghost use Rattle.pcl_output.specs.Nodes.{Leads, Ends, cost};
ghost use Rattle.pcl_output.specs.Table.{node_number};
ghost use Rattle.pcl_output.specs.declared.table.RowNumbers.{RowNumbers};
ghost use Rattle.pcl_check.specs.Edges.{IsLeastOfRow, IsGiven, BoundData, AreGoodNumbers};

/// With rows counted by least lengths, numbers are good exactly where no token that is true to the rows undercuts
/// one.
pub fn good_numbers_are_feasible()
    ensures { (width : ℕ) (rows : List (List ℕ)) (table : List RowNumbers) → length rows ≤ 65535 → length table ≡ length rows + 1
        → (AreGoodNumbers rows (IsLeastOfRow width rows) (node_number table))
        ↔ (IsFeasible (Leads width rows) (Ends rows) cost (node_number table)) }
{}

/// With rows counted by lengths that bound their data, no such token undercuts good numbers either. The first numbers of
/// row tables are such lengths.
pub fn numbers_by_bounds_are_feasible()
    ensures { (width : ℕ) (rows : List (List ℕ)) (table : List RowNumbers) (lengths : ℕ → Method → ℕ) → length rows ≤ 65535
        → length table ≡ length rows + 1 → BoundData width rows lengths → AreGoodNumbers rows (IsGiven lengths) (node_number table)
        → IsFeasible (Leads width rows) (Ends rows) cost (node_number table) }
{}
