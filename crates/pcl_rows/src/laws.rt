//! Laws of row data.

ghost use Rattle.std.specs.Prelude.{◌≡◌, ℕ, List, length};
ghost use Rattle.pcl_base.specs.declared.method.Method.{Method};
ghost use Rattle.pcl_rows.specs.Decoding.{decoded};
ghost use Rattle.pcl_rows.specs.Rows.{Decodes};

/// Data makes one row at most over a seed row. Its elements can be read in one way.
pub fn data_makes_one_row()
    ensures { (method : Method) (seed bytes row other : List ℕ) → Decodes method seed bytes row → Decodes method seed bytes other
        → row ≡ other }
{}

/// The row that data makes is the one that is computed from it, element by element. A law: the call does nothing.
pub fn row_is_decoded()
    ensures { (method : Method) (seed bytes row : List ℕ) → Decodes method seed bytes row → row ≡ decoded method seed bytes }
{}
