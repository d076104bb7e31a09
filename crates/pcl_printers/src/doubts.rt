//! What printers may read otherwise (docs/PRINTERS.md).

/// By whose reading what is written must print what a job prints.
#[derive(Clone, Copy, Debug, PartialEq, Eq)]
pub enum Readers {
    /// Printers, of which some read some places otherwise than docs/LANGUAGE.md: a job with such a place goes as it came.
    Printers,
    /// Whoever reads as docs/LANGUAGE.md says.
    Profile,
}

/// What printers may read otherwise in a job.
#[derive(Clone, Copy, Debug, PartialEq, Eq)]
pub enum Doubt {
    /// A mark that stands between dots.
    BetweenDots,
    /// A mark at the cursor after a raster with fewer rows than its height.
    ShortRaster,
    /// A mark at the cursor after a command that may take it to the first line.
    FirstLine,
    /// A row by method 3 after an offset of 0 and a row with dots.
    SeedRow,
    /// A width or a height of a raster of 0.
    RasterSize,
    /// An advance below 0.
    Advance,
    /// A code without a character.
    Code,
    /// A rectangle or a character without dots, or a raster without rows, on an unmarked page.
    EmptyMark,
    /// The column width after another font came into use, or the selected one was sent anew, or has a part of a PCL unit.
    ColumnWidth,
    /// A tab, or a move by rows, past the end of the page, or a line spacing of more than its height.
    PastEnd,
    /// A part of a unit of 1/7200 inch, or of a PCL unit, also in an advance.
    PartOfUnit,
    /// Sides, a media type, a page length or an orientation on a marked page, which may eject it.
    Ejection,
    /// Ink past the left or the right edge of the page, half a dot past its lower one, or past the edge to which the page is moved; a row
    /// of a raster that began with the cursor at the right edge.
    Edge,
    /// A quality of printing, a text scale or a space, which ends a raster that may go on; or a row of one that the end of a macro may end.
    OpenRaster,
    /// A row outside a raster, after one that started away from the left edge.
    RowStart,
    /// A text scale that isn't 0, which may scale letters, or is the print mode of a DeskJet, which may not know soft fonts.
    TextScale,
    /// Sides, the side of the sheet or a paper source that is asked for after a page of a sheet that may have a back, with an offset.
    Back,
    /// A line of the printer's job language that isn't known to leave pages as they are, or with a control code, which may end it; or a
    /// line feed after the lines, which may be one of them.
    JobLine,
    /// Text, or a column, where another font may be selected: one by its characteristics, one that the job hasn't sent, or none; or a
    /// character for a font that the job hasn't sent.
    OtherFont,
    /// A mark at the cursor that a right margin may have stopped, or text past it; or text past the right edge, with end-of-line wrap.
    RightMargin,
    /// Data of a row by method 3 that end within an offset.
    RowData,
    /// Sides that are said again after a front; or a page after one that a side of the sheet or a paper source ejected, whose sheet may
    /// have a back.
    Sides,
    /// A page size, or an ejected page whose sheet may have a back, in a called macro.
    CalledMacro,
    /// What differs on Letter, A4 and Legal in a job that says no size: ink past what they share, a page that a line feed ejects, or a
    /// mark at the cursor that an edge may have stopped.
    Paper,
    /// A job without a page, which may be there for what it sets or sends.
    NoPage,
    /// What is said after the last page, or after a reset behind it, and no reset puts back; or a page that the end of the job ejects.
    OpenEnd,
}
