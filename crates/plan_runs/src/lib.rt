// Runs of property positions, by value: the record that runs through all properties, the runs of each picture, and what each item is
// associated with.

#![tactic(auto)]

pub mod gain_map;
pub mod lists;
pub mod pictures;

ghost use Rattle.std.specs.Prelude.{◌≡◌, cond, ◌+◌, ◌≤◌, ◌<◌};
ghost use Rattle.plan_runs.specs.Runs.{run_at};

use crate::gain_map::{ImagePlaces, TonePlaces};
use crate::pictures::{AlphaPlaces, ColorPlaces, OptionPlaces};
use panel::PropertyPosition;
use std::marker::Model;

// The positions of the boxes of one role, one after the other: none, one or more. In a clause a run is its first position and its count.
#[derive(Clone, Copy)]
pub struct Run {
    first: PropertyPosition,
    count: u8,
}

impl Model for Run {
    ghost use Rattle.plan_runs.specs.Runs.{Span, Markable, run_at};

    ghost Value = { Span };

    ghost view = { λ r. run_at r.first.0 r.count };

    ghost invariant = { λ r. Markable (run_at r.first.0 r.count) };

    ghost inverse = { λ s. record { first = record { 0 = s.first }; count = s.count } };
}

impl Run {
    // So many positions from the first on. The one behind them leaves the highest of 8 bits free too.
    pub fn new(first: PropertyPosition, count: u8) -> Run
        requires { first.0 + count ≤ 127 }
        ensures { result ≡ run_at first.0 count }
    {
        Run { first, count }
    }

    // The first position.
    pub fn first(self) -> PropertyPosition
        ensures value { result.0 ≡ self.first }
        ensures upper_bound { result.0 + self.count ≤ 127 }
    {
        self.first
    }

    // How many positions there are.
    pub fn count(self) -> u8
        ensures value { result ≡ self.count }
        ensures upper_bound { result ≤ 127 }
    {
        self.count
    }
}

// The next free position. It runs by value through the functions that place properties, each of which hands it back raised, and is lent to
// the gain map's: a rule of the project.
#[derive(Clone, Copy)]
pub struct Positions {
    pub next: PropertyPosition,
}

impl Positions {
    // The next positions, so many, and the record raised behind them.
    pub fn take(self, count: u8) -> (Run, Positions)
        requires { self.next.0 + count ≤ 127 }
        ensures run { result.0 ≡ run_at self.next.0 count }
        ensures next { result.1.next.0 ≡ self.next.0 + count }
    {
        let next = PropertyPosition(self.next.0 + count);
        (Run::new(self.next, count), Positions { next })
    }

    // The next position, if so; else none.
    pub fn take_if(self, is_there: bool) -> (Run, Positions)
        requires { self.next.0 < 127 }
        ensures run { result.0 ≡ run_at self.next.0 (cond is_there 1 0) }
        ensures next { result.1.next.0 ≡ self.next.0 + cond is_there 1 0 }
    {
        self.take(u8::from(is_there))
    }
}

// The places of all properties, and how many properties there are.
#[derive(Clone, Copy)]
pub struct Places {
    pub color: ColorPlaces,
    pub alpha: AlphaPlaces,
    pub options: OptionPlaces,
    pub image: ImagePlaces,
    pub tone: TonePlaces,
    pub count: u8,
}
