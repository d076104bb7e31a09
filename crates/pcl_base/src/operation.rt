//! The operations of the language, and the names that ask for them.

ghost use Rattle.std.specs.Prelude.{◌≡◌};
ghost use Rattle.pcl_base.specs.Operation.{operation_of, takes_data, has};

use crate::{Name, Profile};

/// The direction of a move or of a size.
#[derive(Clone, Copy, Debug, PartialEq, Eq)]
pub enum Axis {
    /// Along the line: to the right.
    Horizontal,
    /// Down the page.
    Vertical,
}

/// What a move or a size is counted in.
#[derive(Clone, Copy, Debug, PartialEq, Eq)]
pub enum Unit {
    /// PCL units, as the unit of measure sets them.
    PclUnit,
    /// Tenths of a point: 10 units of 1/7200 inch.
    Decipoint,
    /// Columns and rows: HMI along the line, VMI down the page.
    Column,
}

/// One of the two fonts that a job selects.
#[derive(Clone, Copy, Debug, PartialEq, Eq)]
pub enum Side {
    /// The primary font.
    Primary,
    /// The secondary font.
    Secondary,
}

/// What a command asks of the printer besides dots. docs/LANGUAGE.md, "What a page is asked with".
#[derive(Clone, Copy, Debug, PartialEq, Eq)]
pub enum Asking {
    /// One side or both, and which edge is bound ("Simplex/Duplex Print").
    Sides,
    /// Where printed sheets go ("Output Bin Selection").
    OutputBin,
    /// Plain paper, bond, transparencies and others ("Media Type").
    MediaType,
    /// The tray, or a sheet fed by hand ("Paper Source").
    PaperSource,
    /// The front or the back of a sheet for what comes next ("Duplex Page Side Selection").
    SheetSide,
    /// The length of the page in lines, by which printers choose a paper ("Page Length").
    PageLength,
    /// Which way round the page lies on its sheet ("Logical Page Orientation").
    Orientation,
    /// How far the page is moved to the right on its sheet ("Left Offset Registration").
    LeftOffset,
    /// How far the page is moved down on its sheet ("Top Offset Registration").
    TopOffset,
    /// Whether the printed sheets of the job lie apart from those of the next ("Job Separation").
    JobSeparation,
    /// Whether text is scaled, or how a DeskJet's head moves ("Text Scale Mode").
    TextScale,
    /// Draft, normal or best quality of printing ("Print Quality").
    PrintQuality,
    /// In how many passes a DeskJet prints a row ("Shingling").
    Shingling,
    /// How much ink of a picture a DeskJet leaves out ("Depletion").
    Depletion,
    /// The quality of rasters ("Raster Graphics Quality").
    RasterQuality,
}

impl Asking {
    ghost use Rattle.std.specs.Prelude.{◌≡◌};
    ghost use Rattle.pcl_base.specs.Operation.{is_stated};

    /// Whether the stated profile has it.
    fn is_stated(self) -> bool
        ensures { result ≡ is_stated self }
    {
        match self {
            Asking::Sides
            | Asking::OutputBin
            | Asking::MediaType
            | Asking::PaperSource
            | Asking::SheetSide
            | Asking::PageLength
            | Asking::Orientation
            | Asking::LeftOffset
            | Asking::TopOffset => true,
            Asking::JobSeparation
            | Asking::TextScale
            | Asking::PrintQuality
            | Asking::Shingling
            | Asking::Depletion
            | Asking::RasterQuality => false,
        }
    }
}

/// What a command does. docs/LANGUAGE.md, "Commands", says of each which values it takes.
#[derive(Clone, Copy, Debug, PartialEq, Eq)]
pub enum Operation {
    /// Ejects a marked page and sets the defaults (PCL 5 manual, "Printer Reset").
    Reset,
    /// The same, at the end of a job in the printer's job language ("Universal Exit Language").
    UniversalExit,
    /// Sets the left margin to 0 ("Clear Horizontal Margins").
    ClearMargins,
    /// Moves the cursor down by half a line ("Half-Line Feed").
    HalfLineFeed,
    /// Moves the cursor to the next tab stop.
    HorizontalTab,
    /// Moves the cursor down by a line.
    LineFeed,
    /// Ejects the page.
    FormFeed,
    /// Moves the cursor to the left margin.
    CarriageReturn,
    /// Takes a font into use: SI the primary one, SO the secondary one.
    Shift(Side),
    /// Sets the page size.
    PageSize,
    /// Sets the copies of each page ("Number of Copies").
    Copies,
    /// Sets the line spacing in 1/48 inch ("Vertical Motion Index").
    VerticalMotionIndex,
    /// Sets the line spacing in lines per inch ("Line Spacing").
    LineSpacing,
    /// Sets the top margin in lines.
    TopMargin,
    /// Sets the text length in lines.
    TextLength,
    /// Sets whether a line feed skips the bottom margin ("Perforation Skip").
    PerforationSkip,
    /// Takes 0 alone and does nothing: print direction, transparency.
    OnlyZero,
    /// Asks something of the printer besides dots; a paper source and a side of the sheet eject a marked page.
    Ask(Asking),
    /// Sets the PCL unit ("Unit of Measure").
    UnitOfMeasure,
    /// Sets the column width in 1/120 inch ("Horizontal Motion Index").
    HorizontalMotionIndex,
    /// Sets what CR, LF and FF do besides ("Line Termination").
    LineTermination,
    /// Sets the left margin in columns.
    LeftMargin,
    /// Moves the cursor.
    Move(Axis, Unit),
    /// Keeps the cursor on the stack, or takes it back ("Push/Pop Cursor Position").
    CursorStack,
    /// Sets the ID of the macro that is meant ("Macro ID").
    MacroId,
    /// Begins or ends the definition of a macro, runs a macro, deletes macros or makes one temporary or permanent ("Macro
    /// Control").
    ControlMacros,
    /// Sets a size of the rectangle.
    RectangleSize(Axis, Unit),
    /// Fills the rectangle at the cursor ("Fill Rectangular Area").
    FillRectangle,
    /// Sets the ID of the font that is meant ("Font ID").
    FontId,
    /// Sets the code of the character that is meant ("Character Code").
    CharacterCode,
    /// Deletes fonts or a character, or makes a font temporary or permanent ("Font Control").
    ControlFonts,
    /// Sends a font without its characters, with its data ("Font Header").
    DownloadFont,
    /// Sends a character of a font, with its data ("Download Character").
    DownloadCharacter,
    /// Selects the font of an ID ("Font Selection by ID").
    SelectFont(Side),
    /// Prints a run of text, or the data that follow ("Transparent Print Data").
    PrintText,
    /// Sets the raster resolution.
    RasterResolution,
    /// Sets the raster width ("Source Raster Width").
    RasterWidth,
    /// Sets the raster height ("Source Raster Height").
    RasterHeight,
    /// Takes 0 and 3 and does nothing: the two mean the same in portrait ("Raster Presentation Mode").
    RasterPresentation,
    /// Starts a raster.
    StartRaster,
    /// Ends a raster.
    EndRaster,
    /// Ends a raster and sets method 0.
    EndRasterResetMethod,
    /// Sets the method of row data ("Set Compression Method").
    RasterMethod,
    /// Takes 0 alone and does nothing: the seed row is the row before ("Seed Row Source").
    SeedRowSource,
    /// Skips raster rows ("Raster Y Offset").
    RasterOffset,
    /// Sends a raster row, with its data ("Transfer Raster Data by Row").
    RasterRow,
    /// Does nothing, whatever its value.
    NoEffect,
}

impl Operation {
    /// The operation of a name, if a command of that name is performed.
    // Inlined, so that what is known of a name where it is looked up isn't tested again.
    #[inline(always)]
    #[tactic(auto, unfolding(crate::specs::Operation::operation_of))]
    pub fn with_name(name: Name) -> Option<Operation>
        ensures { result ≡ operation_of name }
    {
        Some(match name {
            Name::One(b'E') => Operation::Reset,
            Name::One(b'9') => Operation::ClearMargins,
            Name::One(b'=') => Operation::HalfLineFeed,
            Name::One(b'\x09') => Operation::HorizontalTab,
            Name::One(b'\x0a') => Operation::LineFeed,
            Name::One(b'\x0c') => Operation::FormFeed,
            Name::One(b'\x0d') => Operation::CarriageReturn,
            Name::One(b'\x0e') => Operation::Shift(Side::Secondary),
            Name::One(b'\x0f') => Operation::Shift(Side::Primary),
            Name::TEXT => Operation::PrintText,
            Name::Two(b'%', b'X') => Operation::UniversalExit,
            Name::Two(b'%', b'A') => Operation::NoEffect,
            Name::Two(b'(', b'X') => Operation::SelectFont(Side::Primary),
            Name::Two(b')', b'X') => Operation::SelectFont(Side::Secondary),
            Name::Two(b'(' | b')', _) => Operation::NoEffect,
            Name::Three(b'&', b'l', b'A') => Operation::PageSize,
            Name::Three(b'&', b'l', b'X') => Operation::Copies,
            Name::Three(b'&', b'l', b'C') => Operation::VerticalMotionIndex,
            Name::Three(b'&', b'l', b'D') => Operation::LineSpacing,
            Name::Three(b'&', b'l', b'E') => Operation::TopMargin,
            Name::Three(b'&', b'l', b'F') => Operation::TextLength,
            Name::Three(b'&', b'l', b'L') => Operation::PerforationSkip,
            Name::Three(b'&', b'l', b'O') => Operation::Ask(Asking::Orientation),
            Name::Three(b'&', b'l', b'U') => Operation::Ask(Asking::LeftOffset),
            Name::Three(b'&', b'l', b'Z') => Operation::Ask(Asking::TopOffset),
            Name::Three(b'&', b'l', b'H') => Operation::Ask(Asking::PaperSource),
            Name::Three(b'&', b'l', b'S') => Operation::Ask(Asking::Sides),
            Name::Three(b'&', b'l', b'G') => Operation::Ask(Asking::OutputBin),
            Name::Three(b'&', b'l', b'M') => Operation::Ask(Asking::MediaType),
            Name::Three(b'&', b'l', b'P') => Operation::Ask(Asking::PageLength),
            Name::Three(b'&', b'l', b'T') => Operation::Ask(Asking::JobSeparation),
            Name::Three(b'&', b'k', b'W') => Operation::Ask(Asking::TextScale),
            Name::Three(b'*', b'o', b'M') => Operation::Ask(Asking::PrintQuality),
            Name::Three(b'*', b'o', b'Q') => Operation::Ask(Asking::Shingling),
            Name::Three(b'*', b'o', b'D') => Operation::Ask(Asking::Depletion),
            Name::Three(b'*', b'r', b'Q') => Operation::Ask(Asking::RasterQuality),
            Name::Three(b'&', b'a', b'P') => Operation::OnlyZero,
            Name::Three(b'&', b'a', b'G') => Operation::Ask(Asking::SheetSide),
            Name::Three(b'&', b'a', b'L') => Operation::LeftMargin,
            Name::Three(b'&', b'a', b'H') => Operation::Move(Axis::Horizontal, Unit::Decipoint),
            Name::Three(b'&', b'a', b'V') => Operation::Move(Axis::Vertical, Unit::Decipoint),
            Name::Three(b'&', b'a', b'C') => Operation::Move(Axis::Horizontal, Unit::Column),
            Name::Three(b'&', b'a', b'R') => Operation::Move(Axis::Vertical, Unit::Column),
            Name::Three(b'&', b'a', b'M') => Operation::NoEffect,
            Name::Three(b'&', b'u', b'D') => Operation::UnitOfMeasure,
            Name::Three(b'&', b'k', b'H') => Operation::HorizontalMotionIndex,
            Name::Three(b'&', b'k', b'G') => Operation::LineTermination,
            Name::Three(b'&', b'f', b'S') => Operation::CursorStack,
            Name::Three(b'&', b'f', b'Y') => Operation::MacroId,
            Name::Three(b'&', b'f', b'X') => Operation::ControlMacros,
            Name::Three(b'&', b's', b'C') => Operation::NoEffect,
            Name::Three(b'&', b'd', b'@') => Operation::NoEffect,
            Name::Three(b'&', b'p', b'X') => Operation::PrintText,
            Name::Three(b'*', b'p', b'X') => Operation::Move(Axis::Horizontal, Unit::PclUnit),
            Name::Three(b'*', b'p', b'Y') => Operation::Move(Axis::Vertical, Unit::PclUnit),
            Name::Three(b'*', b'c', b'A') => Operation::RectangleSize(
                Axis::Horizontal,
                Unit::PclUnit,
            ),
            Name::Three(b'*', b'c', b'B') => Operation::RectangleSize(
                Axis::Vertical,
                Unit::PclUnit,
            ),
            Name::Three(b'*', b'c', b'H') => Operation::RectangleSize(
                Axis::Horizontal,
                Unit::Decipoint,
            ),
            Name::Three(b'*', b'c', b'V') => Operation::RectangleSize(
                Axis::Vertical,
                Unit::Decipoint,
            ),
            Name::Three(b'*', b'c', b'P') => Operation::FillRectangle,
            Name::Three(b'*', b'c', b'D') => Operation::FontId,
            Name::Three(b'*', b'c', b'E') => Operation::CharacterCode,
            Name::Three(b'*', b'c', b'F') => Operation::ControlFonts,
            Name::Three(b')', b's', b'W') => Operation::DownloadFont,
            Name::Three(b'(', b's', b'W') => Operation::DownloadCharacter,
            Name::Three(b'*', b'v', b'N' | b'T') => Operation::OnlyZero,
            Name::Three(b'*', b't', b'R') => Operation::RasterResolution,
            Name::Three(b'*', b'r', b'S') => Operation::RasterWidth,
            Name::Three(b'*', b'r', b'T') => Operation::RasterHeight,
            Name::Three(b'*', b'r', b'F') => Operation::RasterPresentation,
            Name::Three(b'*', b'r', b'A') => Operation::StartRaster,
            Name::Three(b'*', b'r', b'B') => Operation::EndRaster,
            Name::Three(b'*', b'r', b'C') => Operation::EndRasterResetMethod,
            Name::Three(b'*', b'b', b'M') => Operation::RasterMethod,
            Name::Three(b'*', b'b', b'S') => Operation::SeedRowSource,
            Name::Three(b'*', b'b', b'Y') => Operation::RasterOffset,
            Name::Three(b'*', b'b', b'W') => Operation::RasterRow,
            Name::Three(b'*', b'v', b'O') => Operation::NoEffect,
            Name::Three(b'*', b'c', b'G') => Operation::NoEffect,
            Name::Three(b'(' | b')', b's', b'P' | b'H' | b'V' | b'S' | b'B' | b'T') =>
                Operation::NoEffect,
            _ => return None,
        })
    }

    /// Whether a profile has the operation: that of drivers has all.
    pub fn is_in(self, profile: Profile) -> bool
        ensures { result ≡ has profile self }
    {
        match (profile, self) {
            (Profile::Drivers, _) => true,
            (Profile::Stated, Operation::SeedRowSource) => false,
            (Profile::Stated, Operation::Ask(what)) => what.is_stated(),
            (Profile::Stated, _) => true,
        }
    }

    /// Whether as many bytes of data follow a parameter of a sequence that asks for the operation as its value says.
    pub fn takes_data(self) -> bool
        ensures { result ≡ takes_data self }
    {
        matches!(
            self,
            Operation::RasterRow
                | Operation::DownloadFont
                | Operation::DownloadCharacter
                | Operation::PrintText
        )
    }
}
