//! The numbers of a job.

ghost use Rattle.std.specs.Prelude.{◌≡◌, ◌≤◌};
ghost use Rattle.pcl_base.specs.Value.{signed_whole, is_exit_number, count_of, scaled_by};

/// The sign of a value field, as it is written: `-0` has one, and so has a sign without digits.
#[derive(Clone, Copy, Debug, PartialEq, Eq)]
pub enum Sign {
    Absent,
    Plus,
    Minus,
}

/// The number of a value field (docs/LANGUAGE.md, "Value fields").
#[derive(Clone, Copy, Debug, PartialEq, Eq)]
pub struct Value {
    /// The sign as written.
    pub sign: Sign,
    /// The magnitude in ten-thousandths.
    pub parts: u32,
}

impl Value {
    /// The value of a command without a field: 0 with no sign.
    pub const ZERO: Value = Value {
        sign: Sign::Absent,
        parts: 0,
    };

    /// The whole part: the magnitude rounded down, with its sign.
    pub fn whole(&self) -> i32
        ensures { result ≡ signed_whole self.now }
    {
        let magnitude = (self.parts / 10_000) as i32;
        match self.sign {
            Sign::Minus => -magnitude,
            Sign::Absent | Sign::Plus => magnitude,
        }
    }

    /// Whether it is the number of a universal exit: its whole part is -12345 (PCL 5 manual, "Universal Exit Language").
    pub fn is_exit_number(&self) -> bool
        ensures { result ≡ is_exit_number self.now }
    {
        self.whole() == -12_345
    }

    /// The whole part where it isn't below 0.
    pub fn count(&self) -> Option<u32>
        ensures { result ≡ count_of self.now }
    {
        match (self.sign, self.parts / 10_000) {
            (Sign::Minus, 1..) => None,
            (_, whole) => Some(whole),
        }
    }

    /// The magnitude times `k`, rounded down.
    pub fn scaled(&self, k: u64) -> u64
        requires { k ≤ 16000000 }
        ensures { result ≡ scaled_by k self.now }
    {
        u64::from(self.parts) * k / 10_000
    }
}
