//! What two jobs are found to be.

ghost use Rattle.std.specs.Prelude.{◌≡◌};
ghost use Rattle.std.specs.Bool.{Decides};
ghost use Rattle.pcl_same.specs.Comparing.{of_pages};
ghost use Rattle.pcl_same.specs.declared.comparison.AskedComparison.TheVariants.{Same};

use pcl_base::Size;

/// What two accepted jobs are found to be.
#[derive(Clone, Copy, Debug, PartialEq, Eq)]
pub enum PageComparison {
    /// They have the same pages: as many, in order, of the same sizes, with as many copies, dot for dot.
    Same,
    /// They have different numbers of pages.
    PageCount {
        first: usize,
        second: usize,
    },
    /// They have as many pages, and the first that differs is the one of this number, counted from 1.
    Page {
        number: usize,
        difference: Difference,
    },
}

/// What two accepted jobs are found to be, in their pages and then in what they ask of the printer besides dots.
#[derive(Clone, Copy, Debug, PartialEq, Eq)]
pub enum AskedComparison {
    /// They have the same pages, and ask for the same.
    Same,
    /// They don't have the same pages.
    Pages(PagesDifference),
    /// They have the same pages, and ask for different things.
    Asks(AsksDifference),
}

impl AskedComparison {
    /// Whether the jobs have the same pages and ask for the same.
    pub fn is_same(self) -> bool
        ensures { Decides result (self ≡ Same) }
    {
        self == AskedComparison::Same
    }

    /// What is found of the pages alone.
    pub fn of_pages(self) -> PageComparison
        ensures { result ≡ of_pages self }
    {
        match self {
            AskedComparison::Pages(PagesDifference::Count { first, second }) => {
                PageComparison::PageCount { first, second }
            }
            AskedComparison::Pages(PagesDifference::Page { number, difference }) => {
                PageComparison::Page { number, difference }
            }
            AskedComparison::Same | AskedComparison::Asks(_) => PageComparison::Same,
        }
    }
}

/// How the pages of two jobs differ.
#[derive(Clone, Copy, Debug, PartialEq, Eq)]
pub enum PagesDifference {
    /// There are different numbers of them.
    Count {
        first: usize,
        second: usize,
    },
    /// There are as many, and the first that differs is the one of this number, counted from 1.
    Page {
        number: usize,
        difference: Difference,
    },
}

/// How a page of one job differs from that of another: in its size, else in its copies, else in dots.
#[derive(Clone, Copy, Debug, PartialEq, Eq)]
pub enum Difference {
    /// The sizes of the two.
    Size { first: Size, second: Size },
    /// The copies of the two, 1 to 99.
    Copies { first: u8, second: u8 },
    /// The topmost dot that differs, and of those in its row the leftmost: `x` dots from the left edge and `y` from
    /// the upper one.
    Dot { x: u32, y: u32 },
}

/// How what two jobs with as many pages ask of the printer differs: for a page, else in the universal exits, else in how the job is
/// separated from the next, else in what stays in the printer.
#[derive(Clone, Copy, Debug, PartialEq, Eq)]
pub enum AsksDifference {
    /// The first page for which they ask different things is the one of this number, counted from 1.
    Page {
        number: usize,
        difference: AskedDifference,
    },
    /// They have different numbers of universal exits.
    ExitCount {
        first: usize,
        second: usize,
    },
    /// They have as many universal exits, and the first that differs is the one of this number, counted from 1.
    Exit {
        number: usize,
        difference: ExitDifference,
    },
    /// They are separated from the next job by different values, or one of them isn't.
    Separation,
    /// One of them counts on fonts or macros that stay in the printer, or changes these, or has a command that ejects a page on some
    /// printers, and the other isn't the same job byte for byte.
    Lasting,
}

/// How what two pages are asked with differs: in whether they begin a sheet, else in a setting.
#[derive(Clone, Copy, Debug, PartialEq, Eq)]
pub enum AskedDifference {
    /// One of them is the first page since a reset, and the other isn't.
    Reset,
    /// They have different values of a setting.
    Setting(SettingDifference),
}

/// What a page is asked with by a value, in the order in which pages are compared.
#[derive(Clone, Copy, Debug, PartialEq, Eq)]
pub enum Setting {
    /// How many copies, `&lX`.
    Copies,
    /// The number of the page size, `&lA`.
    PageSize,
    /// The length of the page, `&lP`, in units of 1/7200 inch.
    PageLength,
    /// Which way round the page lies on its sheet, `&lO`.
    Orientation,
    /// One side or both, `&lS`.
    Sides,
    /// Where printed sheets go, `&lG`.
    OutputBin,
    /// The kind of paper, `&lM`.
    MediaType,
    /// Where the paper comes from, `&lH`.
    PaperSource,
    /// How far the page is moved to the right on its sheet, `&lU`, in ten-thousandths of a decipoint.
    LeftOffset,
    /// How far it is moved down, `&lZ`, in the same.
    TopOffset,
    /// Whether text is scaled, or how a DeskJet's head moves, `&kW`.
    TextScale,
    /// Draft, normal or best quality, `*oM`.
    PrintQuality,
    /// In how many passes a DeskJet prints a row, `*oQ`.
    Shingling,
    /// How much ink of a picture a DeskJet leaves out, `*oD`.
    Depletion,
    /// The quality of rasters, `*rQ`.
    RasterQuality,
    /// The front or the back of a sheet, `&aG`.
    SheetSide,
    /// The page size that was said since the page before, `&lA`.
    SizeAgain,
    /// The sides that were said since then, `&lS`.
    SidesAgain,
    /// The paper source that was said since then, `&lH`.
    SourceAgain,
}

/// The first setting in which what two pages are asked with differs, and its values: `None` where nothing is asked.
#[derive(Clone, Copy, Debug, PartialEq, Eq)]
pub struct SettingDifference {
    pub setting: Setting,
    pub first: Option<i64>,
    pub second: Option<i64>,
}

/// How a universal exit of one job differs from that of another: in its place, else in a reset before it, else in its lines.
#[derive(Clone, Copy, Debug, PartialEq, Eq)]
pub enum ExitDifference {
    /// How many pages each has before it.
    Place { first: u32, second: u32 },
    /// A reset stands between one of them and the page or the exit before it, and none before the other.
    Reset,
    /// They have different lines after them.
    Lines,
}
