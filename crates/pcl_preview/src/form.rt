//! The forms of images of pages.

ghost use Rattle.std.specs.Prelude.{◌≡◌, ◌⊎◌, ◌<◌, ◌≤◌, MatchOption};

/// The form of the images of pages.
#[derive(Clone, Copy, Debug)]
pub enum ImageForm {
    /// Netpbm's raw bitmap form, P4: each dot a bit.
    Bitmap,
    /// Netpbm's raw greymap form, P5: each square of dots a byte.
    Greymap(Scale),
}

/// The most dots that a side of a square has.
const SIDE_LIMIT: u32 = 32;

/// How many dots across, and as many down, make a pixel: 1 to 32.
#[derive(Clone, Copy, Debug)]
pub struct Scale {
    /// The dots of a side.
    side: u32,
    ghost in_range: { (1 ≤ side) × (side ≤ 32) },
}

impl Scale {
    /// The scale of this many dots to a side; none where these are 0 or more than 32.
    pub fn new(side: u32) -> Option<Scale>
        ensures { MatchOption result ((side ≡ 0) ⊎ (32 < side)) (λ scale. scale.side ≡ side) }
    {
        if side >= 1 && side <= SIDE_LIMIT {
            Some(Scale { side })
        } else {
            None
        }
    }

    /// The dots of a side.
    pub fn side(self) -> u32
        ensures side { result ≡ self.side }
        ensures range { (1 ≤ result) × (result ≤ 32) }
    {
        self.side
    }
}
