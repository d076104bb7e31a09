//! The limits of a job and of its pages, each named once.

/// The most bytes that the program reads as one input.
pub const INPUT_LIMIT: usize = 2_147_483_647;

/// The most commands that a job may perform.
pub const COMMAND_LIMIT: u32 = 100_000_000;

/// The most pages that a job may eject.
pub const PAGE_LIMIT: u32 = 256;

/// The most bytes of a row: Letter and Legal at 600 dots per inch.
pub const ROW_LIMIT: usize = 600;

/// The most copies of a page.
pub const COPIES_LIMIT: u8 = 99;

/// The greatest ID of a font or of a macro.
pub const ID_LIMIT: u32 = 32_767;

/// The most positions that the cursor stack keeps.
pub const STACK_LIMIT: usize = 20;

/// The most macros that run one inside another.
pub const MACRO_LIMIT: usize = 3;

/// Units of 1/7200 inch in a dot at 300 dots per inch, and in the default PCL unit.
pub const DOT_UNITS: u32 = 24;
