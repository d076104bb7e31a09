//! Laws of page texts as walks.

ghost use Rattle.std.specs.Prelude.{◌≡◌, ℕ, ◌+◌, ◌<◌, ◌≤◌, ◌↔◌, false, List, length, replicate};
ghost use Rattle.std.specs.List.{AllByRecursion};
ghost use Rattle.pcl_base.specs.declared.dpi.Dpi.{Dpi};
ghost use Rattle.pcl_base.specs.declared.size.Size.{Size};
ghost use Rattle.pcl_base.specs.declared.method.Method.TheVariants as methods;
ghost use Rattle.pcl_base.specs.Limits.{copies_limit};
ghost use Rattle.pcl_base.specs.Size.{page_height, page_row_bytes};
ghost use Rattle.pcl_base.specs.Walks.{Walk, IsFeasible, IsLeastCost};
ghost use Rattle.pcl_output.specs.Tokens.{Token, PrintsRows};
ghost use Rattle.pcl_output.specs.PageText.{IsRowOf, IsPageText};
ghost use Rattle.pcl_output.specs.declared.node.Node.{Node};
ghost use Rattle.pcl_output.specs.Nodes.{start, Leads, Ends, cost, AreOfWidth};
ghost use Rattle.pcl_output.specs.LeastTexts.{fixed_bytes, IsLeastText};

/// Tokens print rows of one length exactly where they are a walk from the first node. Rows that are skipped
/// are white, so the seed row of each row that is sent is the row above it.
pub fn printing_is_walking()
    ensures { (width : ℕ) (rows : List (List ℕ)) (tokens : List Token) → AreOfWidth width rows
        → (PrintsRows false methods.Plain (replicate width 0) tokens rows) ↔ (Walk (Leads width rows) (Ends rows) start tokens) }
{}

/// No page text of these rows is shorter than its fixed part and the first node's number in a feasible
/// table. The table may come from anybody.
pub fn feasible_numbers_bound_texts()
    ensures { (dpi : Dpi) (size : Size) (copies : ℕ) (rows : List (List ℕ)) (text : List ℕ) (number : Node → ℕ)
        → IsFeasible (Leads (page_row_bytes size dpi) rows) (Ends rows) cost number → IsPageText dpi size copies rows text
        → fixed_bytes dpi size copies + number start ≤ length text }
{}

/// A least walk from the first node, with the fixed part, is as long as a least page text.
pub fn least_walk_is_least_text()
    ensures { (dpi : Dpi) (size : Size) (copies : ℕ) (rows : List (List ℕ)) (number : ℕ) → 0 < copies → copies ≤ copies_limit
        → length rows ≡ page_height size dpi → AllByRecursion (IsRowOf size dpi) rows
        → IsLeastCost (Leads (page_row_bytes size dpi) rows) (Ends rows) cost start number
        → IsLeastText dpi size copies rows (fixed_bytes dpi size copies + number) }
{}
