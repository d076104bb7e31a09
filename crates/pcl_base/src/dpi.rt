//! How fine a page is painted.

ghost use Rattle.std.specs.Prelude.{◌≡◌};
ghost use Rattle.pcl_base.specs.Dpi.{dots_per_inch, units_per_dot};

/// The dots per inch of a page. Positions and lengths of a job are in units of 1/7200 inch at either
/// resolution, so this says only how many units a dot is wide.
#[derive(Clone, Copy, Debug, PartialEq, Eq)]
pub enum Dpi {
    /// 300 dots per inch.
    Dpi300,
    /// 600 dots per inch.
    Dpi600,
}

impl Dpi {
    /// Dots per inch: 300 or 600.
    pub fn dots(self) -> u32
        ensures { result ≡ dots_per_inch self }
    {
        match self {
            Dpi::Dpi300 => 300,
            Dpi::Dpi600 => 600,
        }
    }

    /// Units of 1/7200 inch in a dot: 24 or 12.
    pub fn unit(self) -> u32
        ensures { result ≡ units_per_dot self }
    {
        match self {
            Dpi::Dpi300 => 24,
            Dpi::Dpi600 => 12,
        }
    }
}
