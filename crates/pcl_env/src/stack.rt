//! Positions, and the stack that keeps some.

ghost use Rattle.std.specs.Prelude.{◌≡◌, []};
ghost use Rattle.std.specs.Option.{option_map};
ghost use Rattle.pcl_env.specs.Stack.{position_of, kept_with, newest_of, older_of};

use arrayvec::ArrayVec;
use pcl_base::STACK_LIMIT;
use std::marker::Model;

/// A place on the page, in units of 1/7200 inch from its upper left corner.
#[derive(Clone, Copy, Debug, Default)]
pub struct Position {
    pub x: u32,
    pub y: u32,
}

/// The positions that a job has pushed, `STACK_LIMIT` at most.
#[derive(Drop)]
pub struct Stack {
    places: ArrayVec<Position, STACK_LIMIT>,
}

impl Model for Stack {
    ghost use Rattle.std.specs.Prelude.{List, map, reverse};
    ghost use Rattle.pcl_env.specs.Settings.{Position as Place};

    ghost Value = { List Place };

    ghost use Rattle.pcl_env.specs.Stack.{position_of};

    ghost view = { λ a. reverse (map position_of a.places.items) };
}

impl Stack {
    /// A stack without positions.
    pub fn new() -> Stack
        ensures { result ≡ [] }
    {
        Stack {
            places: ArrayVec::new(),
        }
    }

    /// Keeps one more position. A full stack stays as it is.
    pub fn push(&mut self, place: Position)
        ensures { self.new ≡ kept_with (position_of place) self.old }
    {
        if !self.places.is_full() {
            self.places.push(place);
        }
    }

    /// Gives the newest position back, if there is one.
    pub fn pop(&mut self) -> Option<Position>
        ensures newest { option_map position_of result ≡ newest_of self.old }
        ensures older { self.new ≡ older_of self.old }
    {
        self.places.pop()
    }
}
