//! An area of a page whose dots are known to have one ink.

ghost use Rattle.std.specs.Prelude.{◌≡◌, ◌-◌, ◌≤◌, ◌⊎◌, IsTrue};
ghost use Rattle.pcl_bitmap.specs.declared.ink.Ink.TheVariants as inks;

use crate::Ink;
use crate::area::Area;

/// An area and the ink of all its dots.
#[derive(Clone, Copy, Debug)]
pub struct Filled {
    pub area: Area,
    pub ink: Ink,
}

impl Filled {
    /// An area without dots.
    pub fn nothing() -> Filled
        ensures { result.area.width ≡ 0 }
    {
        Filled {
            area: Area {
                x: 0,
                y: 0,
                width: 0,
                height: 0,
            },
            ink: Ink::White,
        }
    }

    /// Whether an area is within this one, and is to have its ink.
    pub fn has(self, area: Area, ink: Ink) -> bool
        ensures { IsTrue result → (self.ink ≡ ink) × (self.area.x ≤ area.x) × (self.area.y ≤ area.y)
            × (area.width ≤ self.area.width - (area.x - self.area.x)) × (area.height ≤ self.area.height - (area.y - self.area.y)) }
    {
        if self.ink != ink || area.x < self.area.x || area.y < self.area.y {
            return false;
        }
        let right = area.x - self.area.x;
        let down = area.y - self.area.y;
        area.width <= self.area.width.saturating_sub(right)
            && area.height <= self.area.height.saturating_sub(down)
    }

    /// What is known to have its ink after dots were painted black anywhere.
    pub fn under_black(self) -> Filled
        ensures { (result.area.width ≡ 0) ⊎ ((self.ink ≡ inks.Black) × (result ≡ self)) }
    {
        match self.ink {
            Ink::Black => self,
            Ink::White => Filled::nothing(),
        }
    }
}
