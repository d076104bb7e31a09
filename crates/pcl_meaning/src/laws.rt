//! What page texts, and jobs of them, mean to who reads and performs them. Each law is a call that does nothing.

ghost use Rattle.std.specs.Prelude.{ℕ, List};
ghost use Rattle.pcl_base.specs.declared.dpi.Dpi.{Dpi};
ghost use Rattle.pcl_base.specs.declared.profile.Profile.{Profile};
ghost use Rattle.pcl_page.specs.Jobs.{HasAsksBy};
ghost use Rattle.pcl_meaning.specs.JobTexts.{IsJobOfBy, said_for};
ghost use Rattle.pcl_meaning.specs.PageTexts.{PageTextsMeanTheirPages};

/// A page text between two resets is an accepted job that means the page that the text prints and no other.
/// So it is in any spelling, with any methods and of any size and number of copies: what the grammar of
/// texts says and what the rules of reading and performing say agree.
pub fn page_texts_mean_their_pages()
    ensures { PageTextsMeanTheirPages }
{}

/// A job written again says the copies and the size of each page and asks the printer for nothing else besides dots. It asks for no
/// sides, trays or bins; no universal exit stands in it, and no reset between its pages.
pub fn written_jobs_say_copies_and_sizes()
    ensures { (profile : Profile) (dpi : Dpi) (input output : List ℕ) → (written : IsJobOfBy profile dpi input output)
        → HasAsksBy profile dpi output (said_for written.pages) }
{}
