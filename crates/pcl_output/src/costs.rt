//! What parameters cost, in bytes.

ghost use Rattle.std.specs.Prelude.{◌≡◌, ◌+◌, ◌<◌, ◌≤◌};
ghost use Rattle.pcl_base.specs.Limits.{data_limit};
ghost use Rattle.pcl_output.specs.Spelling.{digit_count, row_cost};

/// How many digits a number needs: 0 has none.
pub fn digits(number: u32) -> u32
    requires { number < 100000 }
    ensures count { result ≡ digit_count number }
    ensures few { result ≤ 5 }
{
    match number {
        0 => 0,
        1..=9 => 1,
        10..=99 => 2,
        100..=999 => 3,
        1000..=9999 => 4,
        _ => 5,
    }
}

/// What a row of this many bytes of data costs. That is the digits of its length, its letter and
/// its data.
pub fn row_cost(bytes: u32) -> u32
    requires { bytes ≤ data_limit }
    ensures cost { result ≡ row_cost bytes }
    ensures small { result ≤ 65541 }
{
    digits(bytes) + 1 + bytes
}
