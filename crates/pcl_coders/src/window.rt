//! The least of the numbers in a window that slides.

ghost use Rattle.std.specs.Prelude.{◌≡◌, ℕ, ◌+◌, ◌<◌, ◌≤◌, List, [], ◌∷◌, ◌++◌, length, drop, slice_index};
ghost use Rattle.pcl_coders.specs.Windows.{IsLeastOf};

use std::marker::Model;

/// Numbers that are put in at one end and taken out at the other, over two slices of one length that are
/// lent to it. It has room for as many numbers as these are long, those included that were taken out. Each
/// call takes a bounded number of steps for each number that is put in.
#[derive(Drop)]
pub struct Window<'a> {
    // All numbers that were put in.
    numbers: &'a mut [u32],
    // The places of those that no later number is below: a queue.
    places: &'a mut [usize],
    taken: usize,
    put: usize,
    // The queue's part of `places`.
    first: usize,
    stop: usize,
}

impl<'a> Model for Window<'a> {
    ghost use Rattle.pcl_coders.specs.Windows.{Numbers};
    ghost use Rattle.pcl_coders.specs.WindowModel.{window_view, IsWindow};

    ghost Value = { Numbers };

    ghost view = { window_view };

    ghost invariant = { IsWindow };
}

impl<'a> Window<'a> {
    /// A window with no number.
    pub fn new(numbers: &'a mut [u32], places: &'a mut [usize]) -> Window<'a>
        requires { length places.old ≡ length numbers.old }
        ensures numbers { result.numbers ≡ [] }
        ensures room { result.room ≡ length numbers.old }
    {
        Window {
            numbers,
            places,
            taken: 0,
            put: 0,
            first: 0,
            stop: 0,
        }
    }

    /// Puts a number in, after the others.
    pub fn put(&mut self, number: u32)
        requires { 0 < self.old.room }
        ensures numbers { self.new.numbers ≡ self.old.numbers ++ number ∷ [] }
        ensures room { self.new.room + 1 ≡ self.old.room }
    {
        let (first, put) = (self.first, self.put);
        let mut stop = self.stop;
        while stop > first && self.numbers[self.places[stop - 1]] >= number {
            stop -= 1;
        }
        self.numbers[put] = number;
        self.places[stop] = put;
        self.put = put + 1;
        self.stop = stop + 1;
    }

    /// Takes out the number that was put in first.
    pub fn take(&mut self)
        requires { 0 < length self.old.numbers }
        ensures numbers { self.new.numbers ≡ drop 1 self.old.numbers }
        ensures room { self.new.room ≡ self.old.room }
    {
        let first = if self.places[self.first] == self.taken {
            self.first + 1
        } else {
            self.first
        };
        self.first = first;
        self.taken += 1;
    }

    /// The least of the numbers that were put in and not yet taken out.
    pub fn least(&self) -> u32
        requires { 0 < length self.now.numbers }
        ensures { IsLeastOf self.now.numbers result }
    {
        self.numbers[self.places[self.first]]
    }
}
