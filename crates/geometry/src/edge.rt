// A drawn edge: where it counts, its sign, its rows, and what it adds to a winding.
ghost use Rattle.std.specs.Prelude.{◌≡◌, true};
ghost use Rattle.curves.specs.Curves.{curve_fits};
ghost use Rattle.curves.specs.code.Reach.{EndsIn};
ghost use Rattle.geometry.specs.code.Reach.{EdgeIn};
ghost use Rattle.geometry.specs.Edges.{bent_counts, counts, sign, first_row, end_row};
ghost use Rattle.geometry.specs.Windings.{adds};

use curves::line::Ends;
use curves::{Point, Position, curve};

// An edge drawn from one corner to another: a curve where it has a control corner, else straight. Contracts ask its range (EdgeIn), which no ghost field
// holds: `edge_of` of specs builds edges of any tables, and would carry a proof; so do `edge_between` and `curve_from`.
#[derive(Clone, Copy)]
pub struct Edge {
    pub from: Point,
    pub to: Point,
    pub control: Option<Point>,
}

// The rows of an edge: the first, and the one past the last; none where they are equal. It is no `Range`, which is not `Copy`.
#[derive(Clone, Copy, Debug, PartialEq, Eq)]
pub struct Rows {
    pub first: u32,
    pub end: u32,
}

// Whether the curve drawn from `from` by the control corner to `to` counts at `at`.
pub fn bent_counts(from: Point, control: Point, to: Point, at: Position) -> bool
    requires ends_in { EndsIn from.x from.y to.x to.y }
    requires y1_value { curve_fits from.x from.y control.x control.y to.x to.y ≡ true }
    ensures answer { result ≡ bent_counts from.x from.y control.x control.y to.x to.y at.x at.y }
{
    if from.y <= to.y {
        curve::curve_counts(
            Ends {
                low: from,
                high: to,
            },
            control,
            at,
        )
    } else {
        curve::curve_counts(
            Ends {
                low: to,
                high: from,
            },
            control,
            at,
        )
    }
}

impl Edge {
    // Whether an edge counts at `at`. A line has a call for each direction, and a curve goes its own way: with one choice of the ends for all three, a pixel
    // over a stream of lines took 1.6 times the instructions.
    #[tactic(auto, unfolding(crate::specs::Edges::counts))]
    #[inline(always)]
    pub fn counts(self, at: Position) -> bool
        requires { EdgeIn self }
        ensures answer { result ≡ counts self at.x at.y }
    {
        match self.control {
            Some(control) => bent_counts(self.from, control, self.to, at),
            None if self.from.y <= self.to.y => Ends {
                low: self.from,
                high: self.to,
            }
            .line_counts(at),
            None => Ends {
                low: self.to,
                high: self.from,
            }
            .line_counts(at),
        }
    }

    // +1 where it is drawn upward, -1 downward, 0 where it is level.
    #[tactic(auto, unfolding(crate::specs::Edges::sign))]
    pub fn sign(self) -> i64
        ensures answer { result ≡ sign self }
    {
        if self.from.y < self.to.y {
            1
        } else if self.to.y < self.from.y {
            -1
        } else {
            0
        }
    }

    // What an edge adds to the winding at `at`.
    #[tactic(auto, unfolding(crate::specs::Windings::adds))]
    pub fn adds(self, at: Position) -> i64
        requires { EdgeIn self }
        ensures answer { result ≡ adds self at.x at.y }
    {
        if self.counts(at) { self.sign() } else { 0 }
    }

    // The rows of an edge; none where it is level.
    pub fn rows(self) -> Rows
        ensures first { result.first ≡ first_row self }
        ensures end { result.end ≡ end_row self }
    {
        Rows {
            first: self.from.y.min(self.to.y),
            end: self.from.y.max(self.to.y),
        }
    }
}
