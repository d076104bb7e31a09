//! The settings of a job and its cursor.

ghost use Rattle.std.specs.Prelude.{◌≡◌};
ghost use Rattle.pcl_env.specs.Settings.{Settings, defaults, kept, restored, font_of, font_in_use};
ghost use Rattle.pcl_env.specs.Usable.{IsUsable};

mod apply;
mod fonts;
mod lines;
mod margins;
mod moves;
mod page;
mod raster;

use crate::Asked;
use crate::stack::{Position, Stack};
use pcl_base::{DOT_UNITS, Method, Profile, Side, Size};
use std::marker::Model;

/// The units of an inch.
const INCH: u32 = 7200;

/// The margin above and below the text, until a job sets another.
const MARGIN: u32 = INCH / 2;

/// The line spacing, until a job sets another: six lines to the inch.
const LINE: u32 = INCH / 6;

/// The column width, until a job sets another: ten columns to the inch.
const COLUMN: u32 = INCH / 10;

/// What a job has set so far, and its cursor (docs/LANGUAGE.md, "Environment"). Lengths and positions
/// are in units of 1/7200 inch, but for those of a raster.
#[derive(Drop)]
pub struct Env {
    size: Size,
    cursor: Position,
    stack: Stack,
    setup: Setup,
}

/// The settings that the return of a macro call puts back.
#[derive(Clone, Copy)]
struct Setup {
    /// Which commands the job may have.
    profile: Profile,
    copies: u8,
    pcl_unit: u32,
    /// The column width.
    hmi: u32,
    /// The line spacing.
    vmi: u32,
    /// The margins, as places on the page.
    top: u32,
    bottom: u32,
    left: u32,
    /// A line feed skips the bottom margin.
    skips: bool,
    /// CR does LF too.
    return_feeds: bool,
    /// LF and FF do CR first.
    feed_returns: bool,
    macro_id: u16,
    font_id: u16,
    character_code: u8,
    /// The IDs of the selected fonts, and which of the two is in use.
    primary: Option<u16>,
    secondary: Option<u16>,
    in_use: Side,
    rectangle_width: u64,
    rectangle_height: u64,
    /// Dots per inch of a raster, and its width and height in such dots where they are set.
    resolution: u32,
    raster_width: Option<u32>,
    raster_height: Option<u32>,
    method: Method,
    /// What the page is asked with.
    asked: Asked,
}

impl Model for Env {
    ghost use Rattle.pcl_env.specs.Settings.{Settings};

    ghost Value = { Settings };

    ghost use Rattle.pcl_env.specs.Usable.{IsUsable};
    ghost use Rattle.pcl_env.specs.Fields.{settings};

    ghost view = { λ a. settings a.size a.cursor a.stack a.setup };

    ghost invariant = { λ a. IsUsable (settings a.size a.cursor a.stack a.setup) };
}

/// What a macro call keeps of the settings, to put it back when it returns.
#[derive(Drop)]
pub struct Saved {
    setup: Setup,
}

impl Model for Saved {
    ghost use Rattle.pcl_env.specs.Settings.{Settings};

    ghost Value = { Settings };

    ghost use Rattle.pcl_env.specs.Usable.{IsUsable};
    ghost use Rattle.pcl_env.specs.Fields.{without_place};

    ghost view = { λ a. without_place a.setup };

    ghost invariant = { λ a. IsUsable (without_place a.setup) };
}

impl Env {
    /// The settings at the beginning of a job that is read by this profile, and after a reset.
    pub fn new(profile: Profile) -> Env
        ensures { result ≡ defaults profile }
    {
        Env {
            size: Size::Letter,
            cursor: Position {
                x: 0,
                y: MARGIN + 3 * LINE / 4,
            },
            stack: Stack::new(),
            setup: Setup {
                profile,
                copies: 1,
                pcl_unit: DOT_UNITS,
                hmi: COLUMN,
                vmi: LINE,
                top: MARGIN,
                bottom: Size::Letter.units_high() - MARGIN,
                left: 0,
                skips: true,
                return_feeds: false,
                feed_returns: false,
                macro_id: 0,
                font_id: 0,
                character_code: 0,
                primary: None,
                secondary: None,
                in_use: Side::Primary,
                rectangle_width: 0,
                rectangle_height: 0,
                resolution: 75,
                raster_width: None,
                raster_height: None,
                method: Method::Plain,
                asked: Asked::NOTHING,
            },
        }
    }

    /// Keeps what a macro call puts back when it returns.
    pub fn save(&self) -> Saved
        ensures kept { result ≡ kept self.now }
        ensures returns { (now : Settings) → restored result now ≡ restored self.now now }
    {
        Saved { setup: self.setup }
    }

    /// Puts back what was saved: all but the page size, what was said of it, the cursor and its stack.
    pub fn restore(&mut self, saved: Saved)
        ensures { self.new ≡ restored saved self.old }
    {
        let asked = saved.setup.asked.with_size_of(self.setup.asked);
        self.setup = Setup {
            asked,
            ..saved.setup
        };
    }

    /// The size of the page.
    pub fn size(&self) -> Size
        ensures value { result ≡ self.now.size }
        ensures usable { IsUsable self.now }
    {
        self.size
    }

    /// By what profile the job is read.
    pub fn profile(&self) -> Profile
        ensures { result ≡ self.now.profile }
    {
        self.setup.profile
    }

    /// The copies of each page, 1 to 99.
    pub fn copies(&self) -> u8
        ensures value { result ≡ self.now.copies }
        ensures usable { IsUsable self.now }
    {
        self.setup.copies
    }

    /// The cursor, in units of 1/7200 inch from the page's left edge. It is within the page.
    pub fn x(&self) -> u32
        ensures value { result ≡ self.now.cursor.x }
        ensures usable { IsUsable self.now }
    {
        self.cursor.x
    }

    /// The cursor, in units of 1/7200 inch from the page's upper edge. It is within the page.
    pub fn y(&self) -> u32
        ensures value { result ≡ self.now.cursor.y }
        ensures usable { IsUsable self.now }
    {
        self.cursor.y
    }

    /// The width of a column (HMI), in units of 1/7200 inch.
    pub fn hmi(&self) -> u32
        ensures { result ≡ self.now.hmi }
    {
        self.setup.hmi
    }

    /// The line spacing (VMI), in units of 1/7200 inch.
    pub fn vmi(&self) -> u32
        ensures { result ≡ self.now.vmi }
    {
        self.setup.vmi
    }

    /// The PCL unit, in units of 1/7200 inch.
    pub fn pcl_unit(&self) -> u32
        ensures { result ≡ self.now.pcl_unit }
    {
        self.setup.pcl_unit
    }

    /// The top margin, in units of 1/7200 inch from the page's upper edge.
    pub fn top_margin(&self) -> u32
        ensures { result ≡ self.now.top }
    {
        self.setup.top
    }

    /// Where the text ends, in units of 1/7200 inch from the page's upper edge.
    pub fn bottom_margin(&self) -> u32
        ensures { result ≡ self.now.bottom }
    {
        self.setup.bottom
    }

    /// The left margin, in units of 1/7200 inch from the page's left edge.
    pub fn left_margin(&self) -> u32
        ensures { result ≡ self.now.left }
    {
        self.setup.left
    }

    /// Whether a line feed skips the bottom margin.
    pub fn skips_perforation(&self) -> bool
        ensures { result ≡ self.now.skips }
    {
        self.setup.skips
    }

    /// Whether CR does LF too.
    pub fn return_feeds(&self) -> bool
        ensures { result ≡ self.now.return_feeds }
    {
        self.setup.return_feeds
    }

    /// Whether LF and FF do CR first.
    pub fn feed_returns(&self) -> bool
        ensures { result ≡ self.now.feed_returns }
    {
        self.setup.feed_returns
    }

    /// The ID of the font that is selected for a side, if one is.
    pub fn font_of(&self, side: Side) -> Option<u16>
        ensures { result ≡ font_of side self.now }
    {
        match side {
            Side::Primary => self.setup.primary,
            Side::Secondary => self.setup.secondary,
        }
    }

    /// Which of the two selected fonts is in use.
    pub fn in_use(&self) -> Side
        ensures { result ≡ self.now.in_use }
    {
        self.setup.in_use
    }

    /// The ID of the font that is selected for the side in use.
    pub fn font_in_use(&self) -> Option<u16>
        ensures { result ≡ font_in_use self.now }
    {
        self.font_of(self.setup.in_use)
    }

    /// The ID of the macro that is meant.
    pub fn macro_id(&self) -> u16
        ensures { result ≡ self.now.macro_id }
    {
        self.setup.macro_id
    }

    /// The ID of the font that is meant.
    pub fn font_id(&self) -> u16
        ensures { result ≡ self.now.font_id }
    {
        self.setup.font_id
    }

    /// The code of the character that is meant.
    pub fn character_code(&self) -> u8
        ensures { result ≡ self.now.character_code }
    {
        self.setup.character_code
    }

    /// The width of the rectangle, in units of 1/7200 inch.
    pub fn rectangle_width(&self) -> u64
        ensures value { result ≡ self.now.rectangle_width }
        ensures usable { IsUsable self.now }
    {
        self.setup.rectangle_width
    }

    /// The height of the rectangle, in units of 1/7200 inch.
    pub fn rectangle_height(&self) -> u64
        ensures value { result ≡ self.now.rectangle_height }
        ensures usable { IsUsable self.now }
    {
        self.setup.rectangle_height
    }

    /// The raster resolution in dots per inch: 75, 100, 150, 200, 300 or 600.
    pub fn resolution(&self) -> u32
        ensures value { result ≡ self.now.resolution }
        ensures usable { IsUsable self.now }
    {
        self.setup.resolution
    }

    /// The raster width in raster dots, if one is set.
    pub fn raster_width(&self) -> Option<u32>
        ensures { result ≡ self.now.raster_width }
    {
        self.setup.raster_width
    }

    /// The raster height in raster dots, if one is set.
    pub fn raster_height(&self) -> Option<u32>
        ensures { result ≡ self.now.raster_height }
    {
        self.setup.raster_height
    }

    /// The method of row data.
    pub fn method(&self) -> Method
        ensures { result ≡ self.now.method }
    {
        self.setup.method
    }

    /// What the job asks of the printer besides dots: the last value of each asking since the last reset.
    pub fn asked(&self) -> Asked
        ensures { result ≡ self.now.asked }
    {
        self.setup.asked
    }
}
