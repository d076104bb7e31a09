//! What the checker's yes says.

ghost use Rattle.std.specs.Prelude.{ℕ, ◌≤◌, List, length, Option, None};
ghost use Rattle.pcl_bitmap.specs.declared.page.Page.{Page};
ghost use Rattle.pcl_output.specs.PageText.{PrintsPage, bitmap_rows};
ghost use Rattle.pcl_output.specs.LeastTexts.{IsLeastText};
ghost use Rattle.pcl_output.specs.PageTables.{IsTableOf};
ghost use Rattle.pcl_output.specs.declared.table.RowNumbers.{RowNumbers};
ghost use Rattle.pcl_cert.specs.declared.check.Verdict.TheVariants as verdicts;
ghost use Rattle.pcl_cert.specs.declared.format.Format.{Format};
ghost use Rattle.pcl_cert.specs.Certificates.{IsProof};
ghost use Rattle.pcl_cert.specs.Checking.{Tables, AreLeastOf, HasLeastLists, IsVerdict, IsBounded};

/// Where the checker says Proved no token that is true to the page undercuts a node's number. That is so in any spelling and
/// with any row data, with row tables or without. Without them it says so wherever the text prints the page, the rows agree,
/// the numbers are such, and the text is as long as that of the first node says.
pub fn proved_tables_are_feasible()
    ensures only { (page : Page) (text : List ℕ) (table : List RowNumbers) (tables : Tables)
        → IsVerdict page text table tables verdicts.Proved → IsBounded page text table tables }
    ensures all { (page : Page) (text : List ℕ) (table : List RowNumbers) → IsBounded page text table None
        → IsVerdict page text table None verdicts.Proved }
{}

/// Where the checker says Proved no page text that prints the page is shorter. The tables may come from anybody, and there
/// may be row tables or none.
pub fn proved_texts_are_least()
    ensures { (page : Page) (text other : List ℕ) (table : List RowNumbers) (tables : Tables)
        → IsVerdict page text table tables verdicts.Proved → PrintsPage page other → length text ≤ length other }
{}

/// The checker says Proved on a least text of a page with the table of a plan. That is so with the row tables of the
/// page or without.
pub fn tables_are_proved()
    ensures { (page : Page) (text : List ℕ) (table : List RowNumbers) (tables : Tables) → IsTableOf page table → PrintsPage page text
        → IsLeastText page.dpi page.size page.copies (bitmap_rows page.bitmap) (length text) → AreLeastOf page tables
        → IsVerdict page text table tables verdicts.Proved }
{}

/// A certificate of either format can say so. The text is short enough for it, the table has the rows of the page, and its
/// numbers and those of the row tables are small enough.
pub fn tables_can_be_certified()
    ensures { (page : Page) (text : List ℕ) (table : List RowNumbers) (format : Format) (places : Option (List (List ℕ)))
        → IsTableOf page table → PrintsPage page text
        → IsLeastText page.dpi page.size page.copies (bitmap_rows page.bitmap) (length text) → HasLeastLists page format places
        → IsProof page.dpi format record { text_len = length text; table = table; places = places } }
{}
