//! Lists of numbers, and quotients of these.

/// The number in a place.
pub fn number_of(numbers: &[i64], place: usize) -> i64 {
    numbers.get(place).copied().unwrap_or(0)
}

/// Adds to the number in a place.
pub fn add(numbers: &mut [i64], place: usize, more: i64) {
    if let Some(number) = numbers.get_mut(place) {
        *number = number.saturating_add(more);
    }
}

/// The quotient, rounded down, or 0 where the divisor isn't above 0.
pub fn quotient(dividend: i64, divisor: i64) -> i64 {
    if divisor > 0 {
        dividend.div_euclid(divisor)
    } else {
        0
    }
}
