//! Rectangles of dots that lie on a page.

/// A rectangle of dots within a page: its upper left dot, and how many dots wide and high it is.
#[derive(Clone, Copy, Debug)]
pub struct Area {
    pub x: usize,
    pub y: usize,
    pub width: usize,
    pub height: usize,
}
