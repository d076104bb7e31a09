//! What a page is asked with.

ghost use Rattle.std.specs.Prelude.{◌≡◌, pos, Some, if◌then◌else◌};
ghost use Rattle.std.specs.Ordering.{int_eq};
ghost use Rattle.pcl_env.specs.Offset.{lie_together};
ghost use Rattle.pcl_env.specs.Settings.{asked_with, copies_said, size_said, with_size_of};

use crate::offset::{lies_at, page_offset};
use pcl_base::{Asking, Size, Value};

/// What a job said of each of these since the last reset, `None` where it said nothing: the last value, as its whole part with its sign
/// (docs/LANGUAGE.md, "What a page is asked with").
#[derive(Clone, Copy, Debug, PartialEq, Eq)]
pub struct Asked {
    /// How many copies of each page, `&lX`.
    pub copies: Option<i64>,
    /// The number of the page size, `&lA`.
    pub page_size: Option<i64>,
    /// The length of the page, `&lP`, in units of 1/7200 inch: as many lines as the value says, of the line spacing that was set then.
    /// Nothing where a page size was said after it.
    pub page_length: Option<i64>,
    /// Which way round the page lies on its sheet, `&lO`.
    pub orientation: Option<i64>,
    /// One side or both, `&lS`.
    pub sides: Option<i64>,
    /// Where printed sheets go, `&lG`.
    pub output_bin: Option<i64>,
    /// The kind of paper, `&lM`.
    pub media_type: Option<i64>,
    /// Where the paper comes from, `&lH`; never 0, which only ejects the page.
    pub paper_source: Option<i64>,
    /// How far the page is moved to the right on its sheet, `&lU`, in ten-thousandths of a decipoint; an offset of less than a decipoint
    /// is 0.
    pub left_offset: Option<i64>,
    /// How far it is moved down, `&lZ`, in the same.
    pub top_offset: Option<i64>,
    /// Whether text is scaled, or how a DeskJet's head moves, `&kW`.
    pub text_scale: Option<i64>,
    /// Draft, normal or best quality, `*oM`.
    pub print_quality: Option<i64>,
    /// In how many passes a DeskJet prints a row, `*oQ`.
    pub shingling: Option<i64>,
    /// How much ink of a picture a DeskJet leaves out, `*oD`.
    pub depletion: Option<i64>,
    /// The quality of rasters, `*rQ`.
    pub raster_quality: Option<i64>,
}

impl Asked {
    /// Nothing is asked, as at the beginning of a job and after a reset.
    pub const NOTHING: Asked = Asked {
        copies: None,
        page_size: None,
        page_length: None,
        orientation: None,
        sides: None,
        output_bin: None,
        media_type: None,
        paper_source: None,
        left_offset: None,
        top_offset: None,
        text_scale: None,
        print_quality: None,
        shingling: None,
        depletion: None,
        raster_quality: None,
    };

    /// The same, but with this value of what is asked, where lines are spaced so, in units of 1/7200 inch. The side of a sheet and
    /// the separation of jobs change nothing here: the one is asked of the next page alone, the other at once.
    pub fn with(self, what: Asking, value: Value, line_spacing: u32) -> Asked
        ensures { result ≡ asked_with what value line_spacing self }
    {
        let whole = i64::from(value.whole());
        match what {
            Asking::Sides => Asked {
                sides: Some(whole),
                ..self
            },
            Asking::OutputBin => Asked {
                output_bin: Some(whole),
                ..self
            },
            Asking::MediaType => Asked {
                media_type: Some(whole),
                ..self
            },
            Asking::PaperSource => self.with_source(whole),
            Asking::SheetSide | Asking::JobSeparation => self,
            Asking::PageLength => Asked {
                page_length: Some(whole * i64::from(line_spacing)),
                ..self
            },
            Asking::Orientation => Asked {
                orientation: Some(whole),
                ..self
            },
            Asking::LeftOffset => Asked {
                left_offset: Some(page_offset(value)),
                ..self
            },
            Asking::TopOffset => Asked {
                top_offset: Some(page_offset(value)),
                ..self
            },
            Asking::TextScale => Asked {
                text_scale: Some(whole),
                ..self
            },
            Asking::PrintQuality => Asked {
                print_quality: Some(whole),
                ..self
            },
            Asking::Shingling => Asked {
                shingling: Some(whole),
                ..self
            },
            Asking::Depletion => Asked {
                depletion: Some(whole),
                ..self
            },
            Asking::RasterQuality => Asked {
                raster_quality: Some(whole),
                ..self
            },
        }
    }

    /// The same, but with this paper source, unless it is 0.
    fn with_source(self, source: i64) -> Asked
        ensures { result ≡ (if int_eq source (pos 0) then self else record self { paper_source = Some source }) }
    {
        if source == 0 {
            return self;
        }
        Asked {
            paper_source: Some(source),
            ..self
        }
    }

    /// Whether this and another put the page in one place on its sheet.
    pub fn lies_with(self, other: Asked) -> bool
        ensures { result ≡ lie_together self other }
    {
        lies_at(self.left_offset) == lies_at(other.left_offset)
            && lies_at(self.top_offset) == lies_at(other.top_offset)
    }

    /// The same, but with as many copies.
    pub fn with_copies(self, copies: u8) -> Asked
        ensures { result ≡ copies_said copies self }
    {
        Asked {
            copies: Some(i64::from(copies)),
            ..self
        }
    }

    /// The same, but with this page size, and no page length.
    pub fn with_size(self, size: Size) -> Asked
        ensures { result ≡ size_said size self }
    {
        Asked {
            page_size: Some(i64::from(size.code())),
            page_length: None,
            ..self
        }
    }

    /// The same, but with the page size and the page length that were said in a call which returns.
    pub(crate) fn with_size_of(self, called: Asked) -> Asked
        ensures { result ≡ with_size_of called self }
    {
        Asked {
            page_size: called.page_size,
            page_length: called.page_length,
            ..self
        }
    }
}
