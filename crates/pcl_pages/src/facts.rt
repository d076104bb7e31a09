//! What is known of the pages of a job.

use pcl_base::{Dpi, Method};
use pcl_output::Step;
use pcl_page::{AskedPage, Asks, Exit, Page};
use pcl_plan::{Plan, plan};
use pcl_writer::write_page;
use serde::Serialize;
use std::alloc::{AllocError, Global};

/// Ten-thousandths of a decipoint in a unit of 1/7200 inch.
const OFFSET_PARTS: i64 = 1_000;

/// How many bytes of row data go by each method.
#[derive(Clone, Copy, Serialize)]
pub struct DataBytes {
    pub method_0: usize,
    pub method_1: usize,
    pub method_2: usize,
    pub method_3: usize,
}

impl DataBytes {
    const NONE: DataBytes = DataBytes {
        method_0: 0,
        method_1: 0,
        method_2: 0,
        method_3: 0,
    };

    /// Those of the rows that a plan sends.
    fn of_plan(plan: &Plan) -> DataBytes {
        let mut bytes = DataBytes::NONE;
        let mut method = Method::Plain;
        for step in plan.steps() {
            match step {
                Step::Skip(_) => {}
                Step::Switch(next) => method = *next,
                Step::Row(length) => bytes = bytes.with(method, usize::from(*length)),
            }
        }
        bytes
    }

    /// With this many more by a method.
    fn with(self, method: Method, more: usize) -> DataBytes {
        match method {
            Method::Plain => DataBytes {
                method_0: self.method_0.saturating_add(more),
                ..self
            },
            Method::Runs => DataBytes {
                method_1: self.method_1.saturating_add(more),
                ..self
            },
            Method::Packed => DataBytes {
                method_2: self.method_2.saturating_add(more),
                ..self
            },
            Method::Delta => DataBytes {
                method_3: self.method_3.saturating_add(more),
                ..self
            },
        }
    }

    /// Those of both.
    fn plus(self, other: DataBytes) -> DataBytes {
        self.with(Method::Plain, other.method_0)
            .with(Method::Runs, other.method_1)
            .with(Method::Packed, other.method_2)
            .with(Method::Delta, other.method_3)
    }
}

/// What is known of a page.
#[derive(Clone, Copy, Serialize)]
pub struct PageFacts {
    /// Counted from 1.
    pub page: usize,
    pub size: &'static str,
    pub copies: u8,
    /// One side or both, where the job asks for it (`&lS`).
    pub sides: Option<i64>,
    /// Where the paper comes from, where the job asks for it (`&lH`).
    pub source: Option<i64>,
    /// Where printed sheets go, where the job asks for it (`&lG`).
    pub output_bin: Option<i64>,
    /// The kind of paper, where the job asks for it (`&lM`).
    pub media_type: Option<i64>,
    /// Which way round the page lies on its sheet, where the job says so (`&lO`).
    pub orientation: Option<i64>,
    /// The front or the back of a sheet, where the job asks for it (`&aG`).
    pub sheet_side: Option<i64>,
    /// How far the page is moved to the right on its sheet, where the job says so (`&lU`), in units of 1/7200 inch.
    pub left_offset: Option<i64>,
    /// How far it is moved down, where the job says so (`&lZ`), in the same.
    pub top_offset: Option<i64>,
    /// Whether text is scaled, or how a DeskJet's head moves, where the job asks for it (`&kW`).
    pub text_scale: Option<i64>,
    /// Draft, normal or best quality, where the job asks for it (`*oM`).
    pub print_quality: Option<i64>,
    /// In how many passes a DeskJet prints a row, where the job asks for it (`*oQ`).
    pub shingling: Option<i64>,
    /// How much ink of a picture a DeskJet leaves out, where the job asks for it (`*oD`).
    pub depletion: Option<i64>,
    /// The quality of rasters, where the job asks for it (`*rQ`).
    pub raster_quality: Option<i64>,
    pub dots: u64,
    pub black_dots: u64,
    /// The bytes of its least page text (docs/OUTPUT.md).
    pub bytes: usize,
    /// The bytes of row data in that text, by method.
    pub data: DataBytes,
}

impl PageFacts {
    /// Those of a page with this number, but for what it is asked with.
    pub fn of_page(alloc: Global, number: usize, page: &Page) -> Result<PageFacts, AllocError> {
        let least = plan(alloc, page)?;
        let mut text = Vec::new(alloc);
        write_page(page, &least, &mut text)?;
        Ok(PageFacts {
            page: number,
            size: page.size.name(),
            copies: page.copies,
            sides: None,
            source: None,
            output_bin: None,
            media_type: None,
            orientation: None,
            sheet_side: None,
            left_offset: None,
            top_offset: None,
            text_scale: None,
            print_quality: None,
            shingling: None,
            depletion: None,
            raster_quality: None,
            dots: u64::from(page.size.width(page.dpi)) * u64::from(page.size.height(page.dpi)),
            black_dots: black_dots(page),
            bytes: text.len(),
            data: DataBytes::of_plan(&least),
        })
    }

    /// The same with what the page is asked with.
    pub fn asked(self, asked: &AskedPage) -> PageFacts {
        PageFacts {
            sides: asked.said.sides,
            source: asked.said.paper_source,
            output_bin: asked.said.output_bin,
            media_type: asked.said.media_type,
            orientation: asked.said.orientation,
            sheet_side: asked.start.sheet_side,
            left_offset: units_of(asked.said.left_offset),
            top_offset: units_of(asked.said.top_offset),
            text_scale: asked.said.text_scale,
            print_quality: asked.said.print_quality,
            shingling: asked.said.shingling,
            depletion: asked.said.depletion,
            raster_quality: asked.said.raster_quality,
            ..self
        }
    }
}

/// The sums over the pages of a job.
#[derive(Clone, Copy, Serialize)]
pub struct Total {
    pub pages: usize,
    pub copies: usize,
    pub dots: u64,
    pub black_dots: u64,
    pub bytes: usize,
    pub data: DataBytes,
}

impl Total {
    /// Of no page.
    const NOTHING: Total = Total {
        pages: 0,
        copies: 0,
        dots: 0,
        black_dots: 0,
        bytes: 0,
        data: DataBytes::NONE,
    };

    /// With one page more.
    fn with(self, page: &PageFacts) -> Total {
        Total {
            pages: self.pages.saturating_add(1),
            copies: self.copies.saturating_add(usize::from(page.copies)),
            dots: self.dots.saturating_add(page.dots),
            black_dots: self.black_dots.saturating_add(page.black_dots),
            bytes: self.bytes.saturating_add(page.bytes),
            data: self.data.plus(page.data),
        }
    }
}

/// A universal exit of a job.
#[derive(Drop, Serialize)]
pub struct ExitFacts {
    /// How many pages come before it.
    pub pages: u32,
    /// Whether a reset stands between the page or the exit before it and itself.
    pub reset: bool,
    /// The lines of the printer's job language after it, each byte as the character of its number.
    pub lines: String,
}

impl ExitFacts {
    /// Those of an exit.
    fn of_exit(alloc: Global, exit: &Exit<'_>) -> Result<ExitFacts, AllocError> {
        let mut lines = String::new(alloc);
        for byte in exit.lines {
            lines.push(char::from(*byte))?;
        }
        Ok(ExitFacts {
            pages: exit.pages,
            reset: exit.is_reset,
            lines,
        })
    }
}

/// What is known of the pages of a job.
#[derive(Drop, Serialize)]
pub struct JobFacts {
    /// The resolution at which they are seen.
    pub dpi: u32,
    pub pages: Vec<PageFacts>,
    /// The universal exits, in order.
    pub exits: Vec<ExitFacts>,
    /// How the job is separated from the next, where it says so after its last page (`&lT`).
    pub separation: Option<i64>,
    pub total: Total,
}

impl JobFacts {
    /// Of these pages and what the job asks for.
    pub fn new(
        alloc: Global,
        dpi: Dpi,
        mut pages: Vec<PageFacts>,
        asks: &Asks<'_>,
    ) -> Result<JobFacts, AllocError> {
        let total = total_asked(&mut pages, &asks.pages);
        Ok(JobFacts {
            dpi: dpi.dots(),
            exits: exits_of(alloc, &asks.exits)?,
            separation: asks.separation,
            pages,
            total,
        })
    }
}

/// Gives each page what it is asked with, and sums the pages up.
fn total_asked(pages: &mut [PageFacts], asks: &[AskedPage]) -> Total {
    let mut total = Total::NOTHING;
    for (page, asked) in pages.iter_mut().zip(asks.iter()) {
        *page = page.asked(asked);
        total = total.with(page);
    }
    total
}

/// What is known of the exits of a job.
fn exits_of(alloc: Global, exits: &[Exit<'_>]) -> Result<Vec<ExitFacts>, AllocError> {
    let mut facts = Vec::new(alloc);
    for exit in exits {
        facts.push(ExitFacts::of_exit(alloc, exit)?)?;
    }
    Ok(facts)
}

/// An offset in whole units of 1/7200 inch.
fn units_of(offset: Option<i64>) -> Option<i64> {
    Some(offset? / OFFSET_PARTS)
}

/// How many dots of a page are black.
fn black_dots(page: &Page) -> u64 {
    let mut black: u64 = 0;
    for byte in page.bitmap.bytes() {
        black = black.saturating_add(u64::from(byte.count_ones()));
    }
    black
}
