//! Runs of bits in lists of bytes. Bit 0 of a list is the highest bit of its first byte.

ghost use Rattle.std.specs.Prelude.{◌≡◌, ℕ, ◌+◌, ◌-◌, ◌*◌, ◌/◌, ◌%◌, ◌^◌, ◌<◌, ◌≤◌, nat_le, nat_lt, ◌&&◌, ◌||◌, length, slice_index, All, bit_and};
ghost use Rattle.pcl_bitmap.specs.Bitmap.{bit_of_byte, dot_of_row};
ghost use Rattle.pcl_bitmap.specs.Dots.{in_run, run_dot};

/// The byte at `index`, 0 past the end.
pub fn byte_at(source: &[u8], index: usize) -> u8
    ensures { result ≡ slice_index source.now index }
{
    source.get(index).copied().unwrap_or(0)
}

// Eight bits of `source`, from bit `8 * index - shift` on. Before its first bit and past its last
// they are 0.
fn shifted_byte(source: &[u8], index: usize, shift: usize) -> u8
    requires { shift < 8 }
    ensures { (k : ℕ) → k < 8 → let place = 8 * index + k in
        bit_of_byte result k ≡ (nat_le shift place && dot_of_row source.now (place - shift)) }
{
    let before = if index > 0 {
        byte_at(source, index - 1)
    } else {
        0
    };
    bits_of_pair(before, byte_at(source, index), shift)
}

/// Eight bits of two bytes, the last of them `shift` bits before the end of the second.
pub fn bits_of_pair(first: u8, second: u8, shift: usize) -> u8
    requires { shift ≤ 8 }
    ensures { result ≡ bit_and ((first * 256 + second) / 2 ^ shift) 255 }
{
    let pair = u16::from(first) * 256 + u16::from(second);
    ((pair >> shift) & 0xFF) as u8
}

/// A byte whose first `count` bits are set, all where there are more.
pub fn leading_ones(count: usize) -> u8
    ensures { (k : ℕ) → k < 8 → bit_of_byte result k ≡ nat_lt k count }
{
    if count < 8 { !(0xFF >> count) } else { 0xFF }
}

/// Sets the bits of `target` from bit `from` up to bit `end` where `source` has a bit set, the first
/// bit of `source` at `from`. Bits past the end of `source` count as clear.
pub fn or_bits(target: &mut [u8], from: usize, end: usize, source: &[u8])
    requires { end ≤ 8 * length target.old }
    ensures bits { (k : ℕ) → dot_of_row target.new k ≡ (run_dot from end source.now k || dot_of_row target.old k) }
    ensures in_bytes { All (λ byte. byte < 256) target.new }
{
    if end.saturating_sub(from) <= 8 {
        or_short(target, from, end, source);
    } else {
        or_long(target, from, end, source);
    }
}

// As `or_bits`, of a run that has eight bits at most.
fn or_short(target: &mut [u8], from: usize, end: usize, source: &[u8])
    requires room { end ≤ 8 * length target.old }
    requires short { end ≤ from + 8 }
    ensures bits { (k : ℕ) → dot_of_row target.new k ≡ (run_dot from end source.now k || dot_of_row target.old k) }
    ensures in_bytes { All (λ byte. byte < 256) target.new }
{
    if from >= end {
        return;
    }
    let first = from / 8;
    or_byte(target, first, from, end, source);
    if end.div_ceil(8) > first + 1 {
        or_byte(target, first + 1, from, end, source);
    }
}

// As `or_bits`, of a run that may be of any length.
fn or_long(target: &mut [u8], from: usize, end: usize, source: &[u8])
    requires { end ≤ 8 * length target.old }
    ensures bits { (k : ℕ) → dot_of_row target.new k ≡ (run_dot from end source.now k || dot_of_row target.old k) }
    ensures in_bytes { All (λ byte. byte < 256) target.new }
{
    let whole = whole_bytes(from, end, source.len());
    if whole > 0 {
        or_bytes(target, from / 8, &source[..whole]);
    }
    or_shifted(target, from + 8 * whole, end, &source[whole..]);
}

// How many of the `len` bytes of a source lie whole in the run and on bytes of the target.
fn whole_bytes(from: usize, end: usize, len: usize) -> usize
    ensures within { result ≤ len }
    ensures in_run { 0 < result → from + 8 * result ≤ end }
    ensures aligned { 0 < result → from % 8 ≡ 0 }
{
    if from % 8 == 0 {
        (end / 8).saturating_sub(from / 8).min(len)
    } else {
        0
    }
}

// Sets the bits of `target` from byte `at` on where `source` has a bit set.
fn or_bytes(target: &mut [u8], at: usize, source: &[u8])
    requires { at + length source.now ≤ length target.old }
    ensures { (k : ℕ) → dot_of_row target.new k
        ≡ (run_dot (8 * at) (8 * (at + length source.now)) source.now k || dot_of_row target.old k) }
{
    for (i, byte) in source.iter().enumerate() {
        target[at + i] |= *byte;
    }
}

// As `or_bits`, byte by byte: those between the ends of the run, which have eight bits of `source`, without a test.
fn or_shifted(target: &mut [u8], from: usize, end: usize, source: &[u8])
    requires { end ≤ 8 * length target.old }
    ensures bits { (k : ℕ) → dot_of_row target.new k ≡ (run_dot from end source.now k || dot_of_row target.old k) }
    ensures in_bytes { All (λ byte. byte < 256) target.new }
{
    if from >= end || source.is_empty() {
        return;
    }
    let first = from / 8;
    let tail = (first + source.len()).min(end / 8).max(first + 1);
    or_part(target, first, first + 1, from, end, source);
    or_pairs(target, first + 1, tail, from, source);
    or_part(target, tail, end.div_ceil(8), from, end, source);
}

// Sets the bits of the run of `or_bits` that lie in the bytes of `target` from `first` up to `last`.
fn or_part(target: &mut [u8], first: usize, last: usize, from: usize, end: usize, source: &[u8])
    requires start { from / 8 ≤ first }
    requires order { first ≤ last }
    requires stop { 8 * last < end + 8 }
    requires room { last ≤ length target.old }
    ensures { (k : ℕ) → dot_of_row target.new k
        ≡ ((in_run (8 * first) (8 * last) k && run_dot from end source.now k) || dot_of_row target.old k) }
{
    for i in first..last {
        or_byte(target, i, from, end, source);
    }
}

// The same of byte `i` alone.
fn or_byte(target: &mut [u8], i: usize, from: usize, end: usize, source: &[u8])
    requires start { from / 8 ≤ i }
    requires stop { 8 * i < end }
    requires room { i < length target.old }
    ensures { (k : ℕ) → dot_of_row target.new k
        ≡ ((in_run (8 * i) (8 * (i + 1)) k && run_dot from end source.now k) || dot_of_row target.old k) }
{
    target[i] |= shifted_byte(source, i - from / 8, from % 8) & leading_ones(end - 8 * i);
}

// The same of bytes that have eight bits of two bytes of `source` each.
fn or_pairs(target: &mut [u8], first: usize, last: usize, from: usize, source: &[u8])
    requires start { from / 8 < first }
    requires order { first ≤ last }
    requires stop { last ≤ from / 8 + length source.now }
    requires room { last ≤ length target.old }
    ensures { (k : ℕ) → dot_of_row target.new k
        ≡ ((in_run (8 * first) (8 * last) k && dot_of_row source.now (k - from)) || dot_of_row target.old k) }
{
    for i in first..last {
        let place = i - from / 8;
        target[i] |= bits_of_pair(source[place - 1], source[place], from % 8);
    }
}
